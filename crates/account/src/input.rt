// A program's input, where a read that fails is told from the input's end.
ghost use Rattle.std.specs.Prelude.{◌≡◌, Ok, Err, MatchOption};
ghost use Rattle.io.specs.Counts.{IsPrefixLen};
ghost use Rattle.account.specs.Input.{next_counted};
ghost use Rattle.account.specs.declared.Failure.TheVariants.{Unread};

use crate::Failure;
use std::io;
use std::io::Read;

// How many bytes were read, and why the read after them failed, if it did: what came before it stands in the buffer all the same.
#[derive(Clone, Copy)]
pub struct Filled {
    pub count: usize,
    pub failure: Option<io::Error>,
}

// The input's next block, its end inside a block, or its end.
#[derive(Clone, Copy, PartialEq, Eq, Debug)]
pub enum Next {
    Block,
    Short,
    End,
}

// Reads until the buffer is full, the input ends or a read fails. Each turn goes on by what was read.
pub fn fill<R: Read>(from: &mut R, buffer: &mut [u8]) -> Filled
    ensures { IsPrefixLen result.count buffer.new }
{
    let mut done: usize = 0;
    // No `for`: a turn goes on by as many bytes as a read gives.
    while done < buffer.len() {
        match from.read(&mut buffer[done..]) {
            Ok(0) => break,
            Ok(more) => done += more,
            Err(why) => {
                return Filled {
                    count: done,
                    failure: Some(why),
                };
            }
        }
    }
    Filled {
        count: done,
        failure: None,
    }
}

// What was read into the 512 bytes of a block. Where a read failed, what came before it counts for nothing.
pub fn next_of(filled: Filled) -> Result<Next, Failure>
    ensures { MatchOption filled.failure (result ≡ Ok (next_counted filled.count)) (λ why. result ≡ Err (Unread why)) }
{
    if let Some(why) = filled.failure {
        return Err(Failure::Unread(why));
    }
    match filled.count {
        512 => Ok(Next::Block),
        0 => Ok(Next::End),
        _ => Ok(Next::Short),
    }
}
