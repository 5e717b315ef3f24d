//! The record of a sample in a dump.

ghost use Rattle.std.specs.Prelude.{◌≡◌, ◌++◌, length, Some, Err, OnOk, OnErr};
ghost use Rattle.sf_extract.specs.Current.{current, stored_len};
ghost use Rattle.sf_extract.specs.Runs.{GrowsBy, PutsRecord, given_now};
ghost use Rattle.sf_extract.specs.declared.types.BadSample.{BadSample};
ghost use Rattle.sf_extract.specs.inner.Acts.{Starts, record_head};

use crate::extractor::Extractor;
use crate::types::{BadSample, GiveFault, Standing};
use sf_avc::LengthFault;
use sf_box::{put_u32, put_u64};
use sf_list::Bytes;
use std::alloc::AllocError;

// Puts what stands before the length of a record at the end.
fn put_head(standing: Standing, flags: u32, out: &mut Bytes) -> Result<(), AllocError>
    ensures ok { OnOk result (out.new ≡ out.old ++ record_head standing flags) }
    ensures err { OnErr result (Starts out.old out.new) }
{
    out.append(&[1])?;
    put_u32(out, standing.track)?;
    put_u32(out, flags)?;
    put_u64(out, standing.shown_us.cast_unsigned())
}

// Puts the record of the current sample at the end. Where it errs any bytes may stand there.
fn put_whole<'a>(
    extractor: &Extractor<'a>,
    standing: Standing,
    stored: &[u8],
    out: &mut Bytes,
) -> Result<(), GiveFault>
    requires standing { current extractor.now ≡ Some standing }
    requires size { stored_len extractor.now ≡ Some (length stored.now) }
    ensures ok { OnOk result (GrowsBy out.old out.new (given_now extractor.now stored.now)) }
    ensures bad { (bad : BadSample) → result ≡ Err (GiveFault.Bad bad) → given_now extractor.now stored.now ≡ Some (Err bad) }
    ensures err { OnErr result (Starts out.old out.new) }
{
    let flags = extractor.flags().unwrap_or(0);
    put_head(standing, flags, out)?;
    let at = out.len();
    put_u32(out, 0)?;
    match extractor.sample_bytes(stored, out) {
        Ok(count) => {
            out.patch(at, &count.to_be_bytes());
            Ok(())
        }
        Err(LengthFault::BadLength { at }) => Err(GiveFault::Bad(BadSample {
            track: standing.track,
            sample: standing.sample,
            at,
        })),
        Err(LengthFault::NoMemory) => Err(GiveFault::NoMemory),
    }
}

/// Puts the record of the current sample, whose stored bytes these are, at the end.
pub(crate) fn put_record<'a>(
    extractor: &Extractor<'a>,
    stored: &[u8],
    out: &mut Bytes,
) -> Result<(), GiveFault>
    requires { stored_len extractor.now ≡ Some (length stored.now) }
    ensures { PutsRecord out.old out.new (given_now extractor.now stored.now) result }
{
    let Some(standing) = extractor.current() else {
        return Ok(());
    };
    let len = out.len();
    let put = put_whole(extractor, standing, stored, out);
    if put.is_err() {
        out.cut(len);
    }
    put
}
