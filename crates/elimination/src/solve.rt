//! Solves by block rows are solves by rows, and what products and solves do to weighted sums.

ghost use Rattle.std.specs.Prelude.{◌≡◌, ℕ, ◌+◌, ◌*◌, ◌%◌, ◌<◌, Bool, List};
ghost use Rattle.local_blas.specs.Kernels.{solution, upper_solution};
ghost use Rattle.serial_model.specs.Solves.{solved_column, solved_with_factors};
ghost use Rattle.elimination.specs.Panels.{reduced};
ghost use Rattle.elimination.specs.Solves.{upper_reduced, gained};
ghost use Rattle.elimination.specs.CodeLaw.{IsWeightedSum};

/// The rows of a lower triangle taken block after block, from the first one down, give what they
/// give at once.
pub fn blocks_solve()
    ensures { (p : ℕ) (inverse : ℕ → ℕ) (unit : Bool) (l : ℕ → ℕ → ℕ) (first m n : ℕ) (x : ℕ → ℕ) (i : ℕ) → reduced p inverse unit l (first + m) n (reduced p inverse unit l first m x) i ≡ reduced p inverse unit l first (m + n) x i }
{}

/// All rows of a lower triangle give the solution.
pub fn all_rows_solve()
    ensures { (p : ℕ) (inverse : ℕ → ℕ) (unit : Bool) (l : ℕ → ℕ → ℕ) (n : ℕ) (x : ℕ → ℕ) (i : ℕ) →
        i < n →
        reduced p inverse unit l 0 n x i ≡ solution p inverse unit l x i }
{}

/// The rows of an upper triangle taken block after block, from the last one up, give what they
/// give at once.
pub fn upper_blocks_solve()
    ensures { (p : ℕ) (inverse : ℕ → ℕ) (unit : Bool) (u : ℕ → ℕ → ℕ) (first m n : ℕ) (x : ℕ → ℕ) (i : ℕ) → upper_reduced p inverse unit u first m (upper_reduced p inverse unit u (first + m) n x) i ≡ upper_reduced p inverse unit u first (m + n) x i }
{}

/// All rows of an upper triangle give the solution.
pub fn all_upper_rows_solve()
    ensures { (p : ℕ) (inverse : ℕ → ℕ) (unit : Bool) (u : ℕ → ℕ → ℕ) (n : ℕ) (x : ℕ → ℕ) (i : ℕ) →
        i < n →
        upper_reduced p inverse unit u 0 n x i ≡ upper_solution p inverse unit n u x i }
{}

/// Rows of a lower triangle, solved and taken off the rows below, keep weighted sums.
pub fn rows_are_linear()
    ensures { (p : ℕ) (inverse : ℕ → ℕ) (n : ℕ) (unit : Bool) (w : ℕ → ℕ) (x : ℕ → ℕ → ℕ) (c : ℕ → ℕ) (l : ℕ → ℕ → ℕ) (first count : ℕ) →
        0 < p → IsWeightedSum p n w x c →
        IsWeightedSum p n w (λ q. reduced p inverse unit l first count (x q)) (reduced p inverse unit l first count c) }
{}

/// Rows of an upper triangle, solved and taken off the rows above, keep weighted sums.
pub fn upper_rows_are_linear()
    ensures { (p : ℕ) (inverse : ℕ → ℕ) (n : ℕ) (unit : Bool) (w : ℕ → ℕ) (x : ℕ → ℕ → ℕ) (c : ℕ → ℕ) (u : ℕ → ℕ → ℕ) (first count : ℕ) →
        0 < p → IsWeightedSum p n w x c →
        IsWeightedSum p n w (λ q. upper_reduced p inverse unit u first count (x q)) (upper_reduced p inverse unit u first count c) }
{}

/// A solve by all rows of a triangle, the lower or the upper one, keeps weighted sums.
pub fn triangles_are_linear()
    ensures { (p : ℕ) (inverse : ℕ → ℕ) (n : ℕ) (w : ℕ → ℕ) (x : ℕ → ℕ → ℕ) (c : ℕ → ℕ) (is_lower unit : Bool) (a : ℕ → ℕ → ℕ) (rows : ℕ) →
        0 < p → IsWeightedSum p n w x c →
        IsWeightedSum p n w (λ q. solved_column p inverse is_lower unit rows a (x q)) (solved_column p inverse is_lower unit rows a c) }
{}

/// A multiple keeps weighted sums.
pub fn scaling_is_linear()
    ensures { (p n : ℕ) (w : ℕ → ℕ) (x : ℕ → ℕ → ℕ) (c : ℕ → ℕ) (alpha : ℕ) →
        IsWeightedSum p n w x c →
        IsWeightedSum p n w (λ q i. (x q i * alpha) % p) (λ i. (c i * alpha) % p) }
{}

/// A product with one left side, a multiple of which is added, keeps weighted sums.
pub fn products_are_linear()
    ensures { (p n : ℕ) (w : ℕ → ℕ) (x y : ℕ → ℕ → ℕ) (c d : ℕ → ℕ) (a : ℕ) (l : ℕ → ℕ → ℕ) (count : ℕ) →
        IsWeightedSum p n w x c → IsWeightedSum p n w y d →
        IsWeightedSum p n w (λ q. gained p a l count (x q) (y q)) (gained p a l count c d) }
{}

/// The solve with factors keeps weighted sums.
pub fn factors_are_linear()
    ensures { (p : ℕ) (inverse : ℕ → ℕ) (n : ℕ) (w : ℕ → ℕ) (x : ℕ → ℕ → ℕ) (c : ℕ → ℕ) (a : ℕ → ℕ → ℕ) (v : List ℕ) (rows : ℕ) →
        0 < p → IsWeightedSum p n w x c →
        IsWeightedSum p n w (λ q. solved_with_factors p inverse a v rows (x q)) (solved_with_factors p inverse a v rows c) }
{}
