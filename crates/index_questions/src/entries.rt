// What k-th tells of a cell.
ghost use Rattle.std.specs.Prelude.{◌≡◌, ◌*◌, length};
ghost use Rattle.arena.specs.Memory.{cell_count};
ghost use Rattle.index_questions.specs.Answers.{listed_at};

use crate::Listed;
use memory_layout::CELL_WORDS;

// What k-th tells of a cell: its number, the length of its key, its frame number; 0 for what lent memory does not have.
pub(crate) fn entry_at(cells: &[u64], cell: u64) -> Listed
    requires { length cells.now ≡ cell_count (length cells.now) * 2 }
    ensures { result ≡ listed_at cells.now cell }
{
    if (cells.len() / CELL_WORDS) as u64 <= cell {
        return Listed {
            cell,
            length: 0,
            frame: 0,
        };
    }
    let c = cell as usize;
    let mark = arena::inside::mark(cells, c);
    let frame = arena::inside::frame(cells, c);
    if mark < 1 {
        return Listed {
            cell,
            length: 0,
            frame,
        };
    }
    Listed {
        cell,
        length: mark - 1,
        frame,
    }
}
