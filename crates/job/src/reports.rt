// Report records: that of result i in its own bytes of the room, from record_size · i on.
ghost use Rattle.std.specs.Prelude.{◌≡◌, ◌++◌, ◌+◌, ◌≤◌, length, drop};
ghost use Rattle.std.proofs.lemmas.List.Edits.{sets};
ghost use Rattle.certificate.specs.definitions.Tests.{certificate_of};
ghost use Rattle.job.specs.definitions.Reports.{little_endian, record_bytes, zero_bytes, room_size};
ghost use Rattle.job.specs.definitions.InnerContracts.{Recordable, written_at};

use crate::types::{MAX_RESULTS, Report};
use certificate::types::Certificate;

// Kept: bytes of the caller's at fixed places, with no heap.
const WORKSHOP_SIZE: usize = 6;

const SERVICE_SIZE: usize = 18;

// The four bytes of a number, the lowest first, from a position on.
fn write_number(room: &mut [u8], at: usize, n: u64)
    requires { at + 4 ≤ length room.old }
    ensures { room.new ≡ sets room.old at (little_endian n) }
{
    room[at..at + 4].copy_from_slice(&n.to_le_bytes()[..4]);
}

// Writes the record of result i.
pub(crate) fn write_record(report: Report, room: &mut [u8], i: usize, made: &Certificate)
    requires { Recordable report room.old i made.now.model.degree }
    ensures { room.new ≡ written_at report room.old i (record_bytes report i (certificate_of made.now)) }
{
    let degree = made.model.degree as u8;
    let radius = u64::from(made.model.radius);
    match report {
        Report::Empty => {}
        Report::Workshop => {
            let at = WORKSHOP_SIZE * i;
            room[at] = i as u8;
            room[at + 1] = degree;
            write_number(room, at + 2, radius);
        }
        Report::Service => {
            let at = SERVICE_SIZE * i;
            room[at] = i as u8;
            room[at + 1] = degree;
            write_number(room, at + 2, made.contraction);
            write_number(room, at + 6, made.residual);
            write_number(room, at + 10, made.displacement);
            write_number(room, at + 14, radius);
        }
    }
}

// How many bytes 32 records have.
pub(crate) fn room_size(report: Report) -> usize
    ensures { result ≡ room_size report }
{
    match report {
        Report::Empty => 0,
        Report::Workshop => WORKSHOP_SIZE * MAX_RESULTS,
        Report::Service => SERVICE_SIZE * MAX_RESULTS,
    }
}

// The bytes of 32 records become zero.
pub(crate) fn clear_room(report: Report, room: &mut [u8])
    requires { room_size report ≤ length room.old }
    ensures { room.new ≡ zero_bytes (room_size report) ++ drop (room_size report) room.old }
{
    let size = room_size(report);
    room[..size].fill(0);
}
