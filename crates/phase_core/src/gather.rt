//! Folding updates into sums.
ghost use Rattle.std.specs.Prelude.{◌≡◌, ℕ, ◌+◌, ◌-◌, ◌<◌, All, length, fold, slice_index, nat_lt, if◌then◌else◌};
ghost use Rattle.graph_model.specs.declared.value.Update.{Update};
ghost use Rattle.phase_model.specs.Sums.{values_to};

use gather_laws::VertexProgram;
use graph_model::Update;

/// Folds each update into the sum of its destination. The sum of vertex 0 stands at `first`.
pub(crate) fn fold_updates<P: VertexProgram>(
    program: &P,
    updates: &[Update],
    first: usize,
    sums: &mut [u64],
)
    requires { All (λ (u : Update). first + u.dst < length sums.old) updates.now }
    ensures { (place : ℕ) → slice_index sums.new place ≡ (if nat_lt place first then slice_index sums.old place else
        fold (P.rules program.now).fold (slice_index sums.old place) (values_to (place - first) updates.now)) }
{
    for update in updates {
        let sum = &mut sums[first + update.dst as usize];
        *sum = program.fold(*sum, update.value);
    }
}
