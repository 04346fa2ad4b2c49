// The words of the command line.
ghost use Rattle.std.specs.Prelude.{◌≡◌, ◌≤◌, length, IfOk};
ghost use Rattle.io.specs.Counts.{IsPrefixLen};

use crate::{FillError, Host};
use std::rt::Env;

impl Host {
    // Puts an argument at the buffer's start. Answers its length; where it does not fit, its first bytes fill the buffer.
    pub fn arg(&self, i: usize, buf: &mut [u8]) -> Result<usize, FillError>
        ensures { IfOk result (λ n. IsPrefixLen n buf.new) }
    {
        self.rt.arg(i, buf)
    }

    fn is_given(&self, i: usize) -> bool {
        let mut first = [0u8; 1];
        !matches!(self.rt.arg(i, &mut first), Err(FillError::NotPresent))
    }

    // How many arguments there are, with the program's name.
    pub fn arg_count(&self) -> usize {
        for i in 0..usize::MAX {
            if !self.is_given(i) {
                return i;
            }
        }
        0
    }
}
