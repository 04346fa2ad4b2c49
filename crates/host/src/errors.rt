// What went wrong last.
ghost use Rattle.std.specs.Prelude.{◌≡◌, IfOk, OnErr};

use crate::Host;
use std::io::Error;

impl Host {
    pub(crate) fn set(&self, error: i32) {
        self.error.set(error);
    }

    // Keeps why something failed.
    pub(crate) fn note(&self, error: Error) {
        self.set(error.raw_os_error().unwrap_or(crate::EIO));
    }

    // What was got; nothing where that failed, and why is kept.
    pub(crate) fn kept<T: Drop>(&self, got: std::io::Result<T>) -> Option<T>
        ensures ok { IfOk got (λ it. result ≡ Some it) }
        ensures err { OnErr got (result ≡ None) }
    {
        match got {
            Ok(it) => Some(it),
            Err(e) => {
                self.note(e);
                None
            }
        }
    }

    // Whether what failed last failed since a name is taken.
    pub fn is_taken(&self) -> bool {
        self.error.get() == crate::EEXIST
    }

    // Writes a line to standard error: what failed, a colon and why.
    pub fn fail(&self, what: &[u8]) {
        let error = Error::from_raw_os_error(self.error.get());
        self.write_all(crate::STDERR, what);
        self.write_all(crate::STDERR, b": ");
        self.say(error);
        self.write_all(crate::STDERR, b"\n");
    }

    // The words of an error, without its number.
    fn say(&self, error: Error) {
        match format!(in self.rt.alloc(); "{error}") {
            Ok(text) => self.say_words(text.as_str()),
            Err(_) => self.say_words("Cannot allocate memory"),
        }
    }

    fn say_words(&self, text: &str) {
        let words = match text.split_once(" (os error ") {
            Some((before, _)) => before,
            None => text,
        };
        self.write_all(crate::STDERR, words.as_bytes());
    }
}
