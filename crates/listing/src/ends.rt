// How a listing ends.
ghost use Rattle.std.specs.Prelude.{◌≡◌};
ghost use Rattle.listing.specs.Definition.Ends.{end_of, byte_of};

use super::Failure;

// The end of a log of which so many bytes are left where the input ends.
pub fn end_of(left: usize) -> Result<(), Failure>
    ensures { result ≡ end_of left }
{
    if left == 0 {
        Ok(())
    } else {
        Err(Failure::BadLog)
    }
}

// The byte that tells an end.
pub fn byte_of(end: Result<(), Failure>) -> u8
    ensures { result ≡ byte_of end }
{
    match end {
        Ok(()) => b'0',
        Err(Failure::BadLog) => b'b',
        Err(Failure::ReadFailed) => b'r',
        Err(Failure::WriteFailed) => b'w',
        Err(Failure::ReaderEnded) => b'p',
    }
}
