// The space for a transcript.
ghost use Rattle.std.specs.Prelude.{◌≡◌, replicate};
ghost use Rattle.causes.specs.Limits.{most_transcript_bytes};

use causes::limits::TRANSCRIPT_BYTES;

// For the longest transcript; all zeros. An array of this length is made in a function of its own, so that a proof about what is done with
// it does not go over its elements.
pub fn transcript_space() -> [u8; TRANSCRIPT_BYTES]
    ensures { result ≡ replicate most_transcript_bytes 0 }
{
    [0; TRANSCRIPT_BYTES]
}
