//! The factors of an elimination multiply back, and what that makes of solves and of the inverse.
//!
//! Each law is the contract of a function that does nothing. Words are functions of row and
//! column, both counted from 0; `p` is a prime.
#![tactic(auto)]

ghost use Rattle.std.specs.Prelude.{◌≡◌, ℕ, suc, ◌+◌, ◌*◌, ◌%◌, ◌<◌, ◌≢◌, min, Bool, true, false, if◌then◌else◌, List};
ghost use Rattle.field_core.specs.Residue.{IsPrime, inverse};
ghost use Rattle.field_core.specs.Sums.{sum_to};
ghost use Rattle.run_data.specs.Matrix.{Matrix, cols, IsShaped, AreWords};
ghost use Rattle.serial_model.specs.Elimination.{untouched, elimination, elimination_of, eliminated_matrix, pivot_row, exchanged};
ghost use Rattle.serial_model.specs.Solves.{solved_with_factors, product_of, factors_solved, triangle_solved, first_zero};
ghost use Rattle.local_blas.specs.Kernels.{swapped};
ghost use Rattle.elimination.specs.CodeLaw.{IsWeightedSum};
ghost use Rattle.elimination.specs.Panels.{IsReady};
ghost use Rattle.elimination.specs.Whole.{with_rows_exchanged};
ghost use Rattle.serial_model.specs.Transposes.{identity_matrix, transposed, inverted, exchanged_back, transposed_solved, side_solved, trans_solved};
ghost use Rattle.factor_laws.specs.Triangles.{Inverts, triangle_word, lower_factor, upper_factor, triangle_of, transposed_if, multiplied};

/// Modulo a prime each word but 0 has an inverse, and `inverse` gives it.
pub fn words_have_inverses()
    ensures { (p : ℕ) → IsPrime p → Inverts p (inverse p) }
{}

/// The lower factor times the upper one is the matrix with its rows exchanged, modulo the prime:
/// of any shape, and also where a column has no pivot.
pub fn factors_multiply_back()
    ensures { (p m n : ℕ) (a : ℕ → ℕ → ℕ) (i j : ℕ) →
        IsPrime p → IsReady p m 0 (untouched a) → j < n →
        sum_to (min m n) (λ k. triangle_word true true (elimination p (inverse p) m n a).words i k * triangle_word false false (elimination p (inverse p) m n a).words k j) % p
        ≡ exchanged (elimination p (inverse p) m n a).pivots 0 (min m n) (λ r. a r j) i }
{}

/// The exchanges in falling order undo the exchanges in order, and the other way round.
pub fn exchanges_are_undone()
    ensures there { (v : List ℕ) (first n : ℕ) (x : ℕ → ℕ) (i : ℕ) → exchanged_back v first n (exchanged v first n x) i ≡ x i }
    ensures back { (v : List ℕ) (first n : ℕ) (x : ℕ → ℕ) (i : ℕ) → exchanged v first n (exchanged_back v first n x) i ≡ x i }
{}

/// For a square matrix A whose INFO is 0 the solve with its factors gives the column x with
/// A x = b, modulo the prime.
pub fn factors_solve()
    ensures { (p n : ℕ) (a : ℕ → ℕ → ℕ) (b : ℕ → ℕ) (i : ℕ) →
        IsPrime p → IsReady p n 0 (untouched a) → (elimination p (inverse p) n n a).info ≡ 0 → i < n →
        sum_to n (λ k. a i k * solved_with_factors p (inverse p) (elimination p (inverse p) n n a).words (elimination p (inverse p) n n a).pivots n b k) % p ≡ b i % p }
{}

/// The same of matrices: the product of the factors that stand in the eliminated matrix is the
/// matrix with its rows exchanged.
pub fn factor_matrices_multiply_back()
    ensures { (p : ℕ) (a c : Matrix) →
        IsPrime p → IsShaped a → AreWords p a → c.rows ≡ a.rows → cols c ≡ cols a →
        product_of p 1 (lower_factor (eliminated_matrix p (inverse p) a)) (upper_factor (eliminated_matrix p (inverse p) a)) 0 c
        ≡ with_rows_exchanged a (elimination_of p (inverse p) a).pivots 0 (min a.rows (cols a)) }
{}

/// The INFO of a solve with the factors of a square matrix is that of the elimination.
pub fn solve_has_the_info()
    ensures { (p : ℕ) (a b : Matrix) (v : List ℕ) →
        IsShaped a → AreWords p a → cols a ≡ a.rows →
        (factors_solved p (inverse p) (eliminated_matrix p (inverse p) a) v b).info ≡ (elimination_of p (inverse p) a).info }
{}

/// For a square matrix A whose INFO is 0 the solve with its factors gives the X with A X = B.
pub fn systems_are_solved()
    ensures { (p : ℕ) (a b c : Matrix) →
        IsPrime p → IsShaped a → AreWords p a → cols a ≡ a.rows → (elimination_of p (inverse p) a).info ≡ 0 →
        IsShaped b → AreWords p b → b.rows ≡ a.rows → c.rows ≡ b.rows → cols c ≡ cols b →
        product_of p 1 a (factors_solved p (inverse p) (eliminated_matrix p (inverse p) a) (elimination_of p (inverse p) a).pivots b).matrix 0 c ≡ b }
{}

/// For a square matrix A whose INFO is 0 the product of A and its inverse by factors has ones on
/// the diagonal and zeros elsewhere.
pub fn inverse_multiplies_to_ones()
    ensures { (p : ℕ) (a b c : Matrix) →
        IsPrime p → IsShaped a → AreWords p a → cols a ≡ a.rows → (elimination_of p (inverse p) a).info ≡ 0 →
        c.rows ≡ a.rows → cols c ≡ a.rows →
        product_of p 1 a (inverted p (inverse p) (eliminated_matrix p (inverse p) a) (elimination_of p (inverse p) a).pivots b).matrix 0 c ≡ identity_matrix a.rows }
{}

/// From the other side too: the product of the inverse and A.
pub fn inverse_multiplies_from_the_left()
    ensures { (p : ℕ) (a b c : Matrix) →
        IsPrime p → IsShaped a → AreWords p a → cols a ≡ a.rows → (elimination_of p (inverse p) a).info ≡ 0 →
        c.rows ≡ a.rows → cols c ≡ a.rows →
        product_of p 1 (inverted p (inverse p) (eliminated_matrix p (inverse p) a) (elimination_of p (inverse p) a).pivots b).matrix a 0 c ≡ identity_matrix a.rows }
{}

/// For a square matrix A whose INFO is 0 the solve with the transpose of its factors gives the
/// column x with A^T x = b, modulo the prime.
pub fn transposed_factors_solve()
    ensures { (p n : ℕ) (a : ℕ → ℕ → ℕ) (b : ℕ → ℕ) (i : ℕ) →
        IsPrime p → IsReady p n 0 (untouched a) → (elimination p (inverse p) n n a).info ≡ 0 → i < n →
        sum_to n (λ k. a k i * transposed_solved p (inverse p) (elimination p (inverse p) n n a).words (elimination p (inverse p) n n a).pivots n b k) % p ≡ b i % p }
{}

/// The same of matrices: the X with A^T X = B.
pub fn transposed_systems_are_solved()
    ensures { (p : ℕ) (a b c : Matrix) →
        IsPrime p → IsShaped a → AreWords p a → cols a ≡ a.rows → (elimination_of p (inverse p) a).info ≡ 0 →
        IsShaped b → AreWords p b → b.rows ≡ a.rows → c.rows ≡ b.rows → cols c ≡ cols b →
        product_of p 1 (transposed a) (trans_solved p (inverse p) true (eliminated_matrix p (inverse p) a) (elimination_of p (inverse p) a).pivots b).matrix 0 c ≡ b }
{}

/// With neither a transpose nor the right side, these are the solves of the serial run.
pub fn plain_solves_are_the_same()
    ensures triangle { (p : ℕ) (lower unit : Bool) (alpha : ℕ) (a b : Matrix) → side_solved p (inverse p) true false lower unit alpha a b ≡ triangle_solved p (inverse p) lower unit alpha a b }
    ensures factors { (p : ℕ) (a b : Matrix) (v : List ℕ) → trans_solved p (inverse p) false a v b ≡ factors_solved p (inverse p) a v b }
{}

/// The INFO of a triangular solve from either side is that of the diagonal, and where it is not 0
/// B stays.
pub fn sides_have_the_info()
    ensures info { (p : ℕ) (left trans lower unit : Bool) (alpha : ℕ) (a b : Matrix) →
        cols a ≡ a.rows →
        (side_solved p (inverse p) left trans lower unit alpha a b).info ≡ (if unit then 0 else first_zero a) }
    ensures stays { (p : ℕ) (left trans lower unit : Bool) (alpha : ℕ) (a b : Matrix) →
        cols a ≡ a.rows → IsShaped b → (if unit then 0 else first_zero a) ≢ 0 →
        (side_solved p (inverse p) left trans lower unit alpha a b).matrix ≡ b }
{}

/// A triangular solve whose INFO is 0 gives the X with op(A) X = alpha B from the left, and the X
/// with X op(A) = alpha B from the right, where A stands for the triangle that is named.
pub fn triangles_are_solved()
    ensures left { (p : ℕ) (trans lower unit : Bool) (alpha : ℕ) (a b c : Matrix) →
        IsPrime p → AreWords p a → cols a ≡ a.rows → (if unit then 0 else first_zero a) ≡ 0 →
        b.rows ≡ a.rows → c.rows ≡ b.rows → cols c ≡ cols b →
        product_of p 1 (transposed_if trans (triangle_of lower unit a)) (side_solved p (inverse p) true trans lower unit alpha a b).matrix 0 c ≡ multiplied p alpha b }
    ensures right { (p : ℕ) (trans lower unit : Bool) (alpha : ℕ) (a b c : Matrix) →
        IsPrime p → AreWords p a → cols a ≡ a.rows → (if unit then 0 else first_zero a) ≡ 0 →
        cols b ≡ a.rows → c.rows ≡ b.rows → cols c ≡ cols b →
        product_of p 1 (side_solved p (inverse p) false trans lower unit alpha a b).matrix (transposed_if trans (triangle_of lower unit a)) 0 c ≡ multiplied p alpha b }
{}

/// A square system whose matrix has INFO 0 has one solution, modulo the prime.
pub fn systems_have_one_solution()
    ensures { (p n : ℕ) (a : ℕ → ℕ → ℕ) (x y : ℕ → ℕ) →
        IsPrime p → IsReady p n 0 (untouched a) → (elimination p (inverse p) n n a).info ≡ 0 →
        ((r : ℕ) → r < n → sum_to n (λ k. a r k * x k) % p ≡ sum_to n (λ k. a r k * y k) % p) →
        (i : ℕ) → i < n → x i % p ≡ y i % p }
{}

/// In falling order one exchange more is that of the row before those that were exchanged.
pub fn falling_exchanges_go_on()
    ensures { (v : List ℕ) (first n : ℕ) (x : ℕ → ℕ) (i : ℕ) → exchanged_back v first (suc n) x i ≡ exchanged_back v (first + 1) n x (swapped first (pivot_row v first) i) }
{}

/// Exchanges in falling order keep weighted sums.
pub fn falling_exchanges_are_linear()
    ensures { (p n : ℕ) (w : ℕ → ℕ) (x : ℕ → ℕ → ℕ) (c : ℕ → ℕ) (v : List ℕ) (first count : ℕ) →
        IsWeightedSum p n w x c →
        IsWeightedSum p n w (λ q. exchanged_back v first count (x q)) (exchanged_back v first count c) }
{}

/// The solve with the transpose of factors keeps weighted sums.
pub fn transposed_factors_are_linear()
    ensures { (p : ℕ) (inverse : ℕ → ℕ) (n : ℕ) (w : ℕ → ℕ) (x : ℕ → ℕ → ℕ) (c : ℕ → ℕ) (a : ℕ → ℕ → ℕ) (v : List ℕ) (rows : ℕ) →
        0 < p → IsWeightedSum p n w x c →
        IsWeightedSum p n w (λ q. transposed_solved p inverse a v rows (x q)) (transposed_solved p inverse a v rows c) }
{}
