//! Tables that were read, and say each of their samples.

ghost use Rattle.std.specs.Prelude.{◌≡◌, ℕ, OnOk, ◌+◌, ◌^◌, ◌<◌, length};
ghost use Rattle.sf_meaning.specs.Answers.{Gives};
ghost use Rattle.sf_meaning.specs.ReadTables.{sizes_view};
ghost use Rattle.sf_meaning.specs.TrackSamples.{listed, samples_said};
ghost use Rattle.sf_meaning.specs.inner.TrackTables.{IsInOrder, tables_view};
ghost use Rattle.sf_meaning.specs.Tracks.{held_in};
ghost use Rattle.sf_cursor.specs.Cursor.{tables_in, HasPlace};
ghost use Rattle.sf_cursor.specs.inner.Sound.{Sound};

use crate::boxes::table_boxes;
use crate::held::chunks_held;
use sf_meaning::{
    MovieFault, TableFault, Tables, count_of, samples_one_by_one, say_samples, tables_told,
};
use std::alloc::Global;
use std::marker::Model;

// The tables say each of their samples, of a track with a timescale and so many sample entries.
fn all_said(scale: u32, entries: u32, tables: &Tables) -> Result<(), TableFault>
    requires { IsInOrder tables.now }
    ensures { Gives TableFault.NoMemory (λ _. tt) result (samples_said scale entries (length (sizes_view tables.now.sizes)) (tables_view tables.now)) }
{
    let count = count_of(&tables.sizes);
    say_samples(scale, u64::from(entries), count, tables)
}

/// A file of so many bytes holds each sample of tables, and none is too long, of a track of this number.
pub(crate) fn tables_held(tables: &Tables, track: u32, bytes: u64) -> Result<(), MovieFault>
    requires { Sound tables.now }
    ensures held { result ≡ held_in bytes track 0 (listed (tables_view tables.now)) }
    ensures places { OnOk result ((i : ℕ) → HasPlace (tables_view tables.now) i) }
{
    samples_one_by_one();
    chunks_held(
        tables.spreads.as_slice(),
        &tables.places,
        &tables.sizes,
        track,
        bytes,
    )
}

/// The tables of a sample table box, which say each of their samples. They take as many bytes as in the box,
/// and nothing stands beside them until a cursor is put over them.
#[derive(Drop)]
pub struct SoundTables {
    tables: Tables,
}

impl Model for SoundTables {
    ghost use Rattle.sf_meaning.specs.TrackSamples.{Tables};
    ghost use Rattle.sf_meaning.specs.inner.TrackTables.{tables_view};
    ghost use Rattle.sf_cursor.specs.inner.Sound.{Sound};

    ghost Value = { Tables };

    ghost view = { λ t. tables_view t.tables };

    ghost invariant = { λ t. Sound t.tables };
}

impl SoundTables {
    /// Reads the body of a sample table box, which begins at a place, of a track with a timescale and so
    /// many sample entries. It errs with the first thing that is wrong with the box, by
    /// `specs/Cursor.antt`, or where there is no memory.
    #[tactic(auto, unfolding(crate::specs::Cursor::tables_in))]
    pub fn read(
        alloc: Global,
        stbl: &[u8],
        base: u64,
        scale: u32,
        entries: u32,
    ) -> Result<SoundTables, TableFault>
        requires { base + length stbl.now < 2 ^ 64 }
        ensures { Gives TableFault.NoMemory (λ tables. tables) result (tables_in base scale entries stbl.now) }
    {
        let boxes = table_boxes(alloc, stbl, base)?;
        let tables = tables_told(alloc, base, boxes.as_slice())?;
        all_said(scale, entries, &tables)?;
        Ok(SoundTables { tables })
    }

    /// A file of so many bytes holds each sample, and none is too long, of a track of this number. It errs
    /// with the first sample that isn't so, and walks along the samples once.
    pub fn held(&self, track: u32, bytes: u64) -> Result<(), MovieFault>
        ensures held { result ≡ held_in bytes track 0 (listed self.now) }
        ensures places { OnOk result ((i : ℕ) → HasPlace self.now i) }
    {
        tables_held(&self.tables, track, bytes)
    }

    /// The tables as they are kept.
    pub(crate) fn into_tables(self) -> Tables
        ensures sound { Sound result }
        ensures same { tables_view result ≡ self }
    {
        self.tables
    }
}
