//! The bytes of keys, behind their codes.
ghost use Rattle.std.specs.Prelude.{◌≡◌};
ghost use Rattle.tb_build.specs.Promise.Codes.{fnv1a};

use tb_build::{KeyBytes, KeyCode};

/// The bytes of a key, behind their code. Most keys are told apart by their codes, and their bytes aren't read.
#[derive(Clone, Copy, PartialEq, Eq, PartialOrd, Ord)]
pub(crate) struct CodedKey<'a> {
    pub(crate) code: u64,
    pub(crate) key: KeyBytes<'a>,
}

impl KeyCode for CodedKey<'_> {
    ghost use Rattle.tb_build.specs.CodeLaws.{bytes_fit};
    ghost use Rattle.tb_build.specs.Promise.Codes.{fnv1a};
    ghost use Rattle.tb_alone.specs.CodedKeys.{coded_agree};

    ghost code = { λ k. fnv1a k.key.bytes.now };

    ghost codes_agree = { λ x y. coded_agree x.code y.code x.key.bytes.now y.key.bytes.now };

    ghost code_fits = { λ x. bytes_fit x.key.bytes.now };

    fn code(&self) -> u64 {
        self.key.code()
    }
}

/// A key of these bytes.
pub(crate) fn coded(bytes: &[u8]) -> CodedKey<'_>
    ensures code { result.code ≡ fnv1a bytes.now }
    ensures bytes { result.key.bytes.now ≡ bytes.now }
{
    let key = KeyBytes { bytes };
    CodedKey {
        code: key.code(),
        key,
    }
}
