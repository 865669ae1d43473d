// An input, read to its end.
ghost use Rattle.std.specs.Prelude.{◌≡◌};
ghost use Rattle.jobcheck.specs.definitions.Input.{read_of, Inside};

use std::io;

// Why there is no whole input: more bytes than a job may have, or a read that failed before the end.
#[derive(Clone, Copy, Debug, PartialEq, Eq)]
pub enum InputError {
    TooLong,
    Unreadable,
}

// How many bytes a read brought, or none where the input has ended. Which error it was plays no part, and none is tried again.
// A function of its own, since no clause of `read_input` can say what the reads answer.
fn read_of(got: io::Result<usize>) -> Result<Option<usize>, InputError>
    ensures { result ≡ read_of got }
{
    match got {
        Ok(0) => Ok(None),
        Ok(bytes) => Ok(Some(bytes)),
        Err(_) => Err(InputError::Unreadable),
    }
}

// Reads until the input ends, a read fails or the buffer is full, and answers the input's length. The buffer is one byte longer
// than a job may be.
pub fn read_input(reader: &mut impl io::Read, buffer: &mut [u8]) -> Result<usize, InputError>
    ensures { Inside result buffer.new }
{
    let mut done = 0;
    while done < buffer.len() {
        let got = reader.read(&mut buffer[done..]);
        let Some(bytes) = read_of(got)? else {
            return Ok(done);
        };
        done += bytes;
    }
    Err(InputError::TooLong)
}
