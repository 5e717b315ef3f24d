ghost use Rattle.std.specs.Prelude.{◌≡◌, ◌+◌, ◌≤◌, ◌∷◌, [], ◌++◌, length, slice_get, option_map, IfSome, IfNone};
ghost use Rattle.sf_world.specs.inner.Files.{files_from, files_of};
ghost use Rattle.sf_world.specs.declared.kept.Node.{out-Node};

use sf_list::Bytes;

/// A file in memory, and those that were kept before it.
pub(crate) struct Node {
    pub(crate) contents: Bytes,
    pub(crate) next: Option<Box<Node>>,
}

impl Drop for Node {
    fn drop(mut self) {
        loop {
            let Node {
                contents: _contents,
                next,
            } = self;
            match next {
                None => return,
                Some(node) => self = Box::into_inner(node),
            }
        }
    }
}

/// Puts a node's file after those of a chain.
pub(crate) fn put(files: &mut Option<Box<Node>>, mut node: Box<Node>)
    ensures { files_of files.new ≡ files_of files.old ++ (out-Node node.value).contents ∷ [] }
{
    node.next = files.take();
    *files = Some(node);
}

// The node after so many others, if there is one.
fn skip(files: &Option<Box<Node>>, count: u32) -> Option<&Node>
    ensures some { IfSome result (λ node. length (files_from node.now) + count ≡ length (files_of files.now)) }
    ensures none { IfNone result (length (files_of files.now) ≤ count) }
{
    let mut rest = files;
    for _ in 0..count {
        match rest {
            None => return None,
            Some(node) => rest = &node.next,
        }
    }
    match rest {
        None => None,
        Some(node) => Some(node),
    }
}

/// The file that was kept after so many others, if there is one.
#[tactic(auto, using(crate::proofs::FilesLemmas::steps))]
pub(crate) fn file_at(files: &Option<Box<Node>>, count: u32) -> Option<&[u8]>
    ensures { option_map (λ bytes. bytes.now) result ≡ slice_get (files_of files.now) count }
{
    let mut ahead = skip(files, count)?;
    let mut node: &Node = match files {
        None => return None,
        Some(node) => node,
    };
    while let Some(next) = &ahead.next {
        ahead = next;
        match &node.next {
            None => unreachable!(),
            Some(next) => node = next,
        }
    }
    Some(node.contents.as_slice())
}
