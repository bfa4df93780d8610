ghost use Rattle.std.specs.Prelude.{◌≡◌, ◌<◌, [], ◌++◌, length, slice_index_or, OnOk, IfOk, string_bytes};
ghost use Rattle.run.specs.Runs.{tree_in, states};
ghost use Rattle.logger.specs.Playing.{rows_told};

use run::run::Run;
use script::rows_line::{RowLine, RowsLine};
use std::alloc::{AllocError, Global};

/// The cells of a held state.
fn cells_of(heap: Global, run: &Run, state: usize) -> Result<Vec<u16>, AllocError>
    requires held { state < length (states run.now) }
    ensures { IfOk result (λ cells. cells.items ≡ slice_index_or (states run.now) state []) }
{
    let mut cells = Vec::new(heap);
    for cell in 0..run.width() {
        cells.push(run.cell(state, cell).unwrap_or(0))?;
    }
    Ok(cells)
}

/// Says which states a run holds.
pub(crate) fn say_rows(heap: Global, run: &Run, said: &mut String) -> Result<(), AllocError>
    ensures { OnOk result (string_bytes said.new ≡ string_bytes said.old ++ rows_told (tree_in run.now) (states run.now)) }
{
    let count = run.len();
    let finished = run.is_finished();
    writeln!(said, "{}", RowsLine { count, finished })?;
    for state in 0..count {
        let cells = cells_of(heap, run, state)?;
        writeln!(said, "{}", RowLine(&cells))?;
    }
    Ok(())
}
