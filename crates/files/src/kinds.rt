// Why a file cannot be read or written, as a person reads it.
ghost use Rattle.std.specs.Prelude.{◌≡◌, codes, IsSomeAnd};

use std::fmt;
use std::io::ErrorKind;

// Plain words for what goes wrong every day; of the rest the kind has words of its own.
fn plain_words(kind: ErrorKind) -> Option<&'static str>
    ensures missing { kind ≡ ErrorKind.NotFound → IsSomeAnd result (λ words. words.now ≡ codes "no such file") }
    ensures denied { kind ≡ ErrorKind.PermissionDenied → IsSomeAnd result (λ words. words.now ≡ codes "permission denied") }
    ensures directory { kind ≡ ErrorKind.IsADirectory → IsSomeAnd result (λ words. words.now ≡ codes "it is a directory") }
    ensures through { kind ≡ ErrorKind.NotADirectory → IsSomeAnd result (λ words. words.now ≡ codes "its path leads through what is no directory") }
    ensures full { kind ≡ ErrorKind.StorageFull → IsSomeAnd result (λ words. words.now ≡ codes "no space is left") }
    ensures closed { kind ≡ ErrorKind.BrokenPipe → IsSomeAnd result (λ words. words.now ≡ codes "the pipe is closed") }
    ensures long { kind ≡ ErrorKind.InvalidFilename → IsSomeAnd result (λ words. words.now ≡ codes "its name is too long") }
{
    match kind {
        ErrorKind::NotFound => Some("no such file"),
        ErrorKind::PermissionDenied => Some("permission denied"),
        ErrorKind::IsADirectory => Some("it is a directory"),
        ErrorKind::NotADirectory => Some("its path leads through what is no directory"),
        ErrorKind::StorageFull => Some("no space is left"),
        ErrorKind::BrokenPipe => Some("the pipe is closed"),
        ErrorKind::InvalidFilename => Some("its name is too long"),
        _ => None,
    }
}

#[derive(Clone, Copy)]
pub struct ErrorWords(pub ErrorKind);

impl fmt::Display for ErrorWords {
    fn fmt<W: fmt::Write>(&self, f: &mut fmt::Formatter<W>) -> fmt::Result {
        match plain_words(self.0) {
            Some(words) => f.write_str(words),
            None => write!(f, "{}", self.0),
        }
    }
}
