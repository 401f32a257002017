// A record's bytes put at the start of a lent buffer, piece behind piece, and how many they are.
ghost use Rattle.std.specs.Prelude.{◌≡◌, ◌+◌, ◌≤◌, length};
ghost use Rattle.records.specs.Record.{pieces, sealed};
ghost use Rattle.records.specs.Put.{Put};

use crate::groups::{groups_count, put_numbers};
use crate::mark::mark;

// Puts bytes as they are, and answers the place behind them. No `copy_from_slice`: it moves by memmove, and of the C library the archive
// wants memcpy and memset alone (docs/C-INTERFACE.md).
pub fn put_bytes(bytes: &[u8], out: &mut [u8], at: usize) -> usize
    requires { at + length bytes.now ≤ length out.old }
    ensures { Put bytes.now out.old at out.new result }
{
    for (i, byte) in bytes.iter().enumerate() {
        out[at + i] = *byte;
    }
    at + bytes.len()
}

// What a record holds, in the pieces in which it is put: numbers and then bytes, twice.
#[derive(Clone, Copy)]
pub struct Parts<'a> {
    pub shape: [u32; 2],
    pub board: &'a [u8],
    pub plan: [u32; 5],
    pub moves: &'a [u8],
    ghost short: { length (pieces shape board.now plan moves.now) ≤ 145 },
}

impl Parts<'_> {
    ghost use Rattle.records.specs.Parts.{body_of};

    // The length of the whole record.
    pub fn len(&self) -> usize
        ensures { result ≡ length (sealed (body_of self.now)) }
    {
        groups_count(&self.shape)
            + self.board.len()
            + groups_count(&self.plan)
            + self.moves.len()
            + 4
    }

    // Puts the whole record, and answers its length.
    pub fn put(&self, out: &mut [u8]) -> usize
        requires { length (sealed (body_of self.now)) ≤ length out.old }
        ensures { Put (sealed (body_of self.now)) out.old 0 out.new result }
    {
        let next = put_numbers(&self.shape, out, 0);
        let next = put_bytes(self.board, out, next);
        let next = put_numbers(&self.plan, out, next);
        let end = put_bytes(self.moves, out, next);
        let mark = mark(&out[..end]);
        put_bytes(&mark.to_be_bytes(), out, end)
    }
}
