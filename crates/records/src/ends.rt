// What stands behind the numbers of a record: its moves and then its mark, no byte less and none more.
ghost use Rattle.std.specs.Prelude.{◌≡◌, ◌+◌, ◌≤◌, length};
ghost use Rattle.board.specs.Tests.{first_refusal};
ghost use Rattle.records.specs.Read.{end_tests, end_said};

use crate::ReadRefusal;
use crate::mark::mark;

// Tests 17, 20 and 19 of moves that end before a place.
pub fn ended_at(bytes: &[u8], end: usize) -> Result<(), ReadRefusal>
    requires { end ≤ length bytes.now + 120 }
    ensures { result ≡ end_said (first_refusal (end_tests bytes.now end)) }
{
    if bytes.len() < end + 4 {
        return Err(ReadRefusal::CutShort(bytes.len()));
    }
    if end + 4 < bytes.len() {
        return Err(ReadRefusal::BytesAfter(end + 4));
    }
    let mark = mark(&bytes[..end]).to_be_bytes();
    if bytes[end..] != mark[..] {
        return Err(ReadRefusal::WrongMark);
    }
    Ok(())
}
