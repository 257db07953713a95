//! The lines of the routines as commands.
ghost use Rattle.std.specs.Prelude.{◌≡◌, IfOk};
ghost use Rattle.script_words.specs.Commands.{word_at, pgemm_of, ptrsm_of, pgetrf_of, pgetrs_of, pgemr2d_of, ptran_of, pgetri_of};

use crate::commands::{numbers_at, pair_at, triple_at, word_at};
use run_data::{Command, Word};
use std::alloc::{AllocError as NoMemory, Global};

/// `pgemm TRANSA TRANSB M N K ALPHA A IA JA B IB JB BETA C IC JC`
#[tactic(auto, unfolding(crate::specs::Commands::pgemm_of))]
pub fn pgemm_of(alloc: Global, words: &[Word]) -> Result<Option<Command>, NoMemory>
    ensures { IfOk result (λ c. c ≡ pgemm_of words.now) }
{
    let Some(numbers) = numbers_at(words, [3, 4, 5, 6, 8, 9, 11, 12, 13, 15, 16]) else {
        return Ok(None);
    };
    let [m, n, k, alpha, ia, ja, ib, jb, beta, ic, jc] = numbers;
    let (transa, transb) = pair_at(alloc, words, 1, 2)?;
    let (a, b, c) = triple_at(alloc, words, 7, 10, 14)?;
    Ok(Some(Command::Pgemm {
        transa,
        transb,
        m,
        n,
        k,
        alpha,
        a,
        ia,
        ja,
        b,
        ib,
        jb,
        beta,
        c,
        ic,
        jc,
    }))
}

/// `ptrsm SIDE UPLO TRANSA DIAG M N ALPHA A IA JA B IB JB`
#[tactic(auto, unfolding(crate::specs::Commands::ptrsm_of))]
pub fn ptrsm_of(alloc: Global, words: &[Word]) -> Result<Option<Command>, NoMemory>
    ensures { IfOk result (λ c. c ≡ ptrsm_of words.now) }
{
    let Some(numbers) = numbers_at(words, [5, 6, 7, 9, 10, 12, 13]) else {
        return Ok(None);
    };
    let [m, n, alpha, ia, ja, ib, jb] = numbers;
    let (side, uplo, transa) = triple_at(alloc, words, 1, 2, 3)?;
    let (diag, a, b) = triple_at(alloc, words, 4, 8, 11)?;
    Ok(Some(Command::Ptrsm {
        side,
        uplo,
        transa,
        diag,
        m,
        n,
        alpha,
        a,
        ia,
        ja,
        b,
        ib,
        jb,
    }))
}

/// `pgetrf M N A IA JA V`
#[tactic(auto, unfolding(crate::specs::Commands::pgetrf_of))]
pub fn pgetrf_of(alloc: Global, words: &[Word]) -> Result<Option<Command>, NoMemory>
    ensures { IfOk result (λ c. c ≡ pgetrf_of words.now) }
{
    let Some(numbers) = numbers_at(words, [1, 2, 4, 5]) else {
        return Ok(None);
    };
    let [m, n, ia, ja] = numbers;
    let (a, v) = pair_at(alloc, words, 3, 6)?;
    Ok(Some(Command::Pgetrf { m, n, a, ia, ja, v }))
}

/// `pgetrs TRANS N NRHS A IA JA V B IB JB`
#[tactic(auto, unfolding(crate::specs::Commands::pgetrs_of))]
pub fn pgetrs_of(alloc: Global, words: &[Word]) -> Result<Option<Command>, NoMemory>
    ensures { IfOk result (λ c. c ≡ pgetrs_of words.now) }
{
    let Some(numbers) = numbers_at(words, [2, 3, 5, 6, 9, 10]) else {
        return Ok(None);
    };
    let [n, nrhs, ia, ja, ib, jb] = numbers;
    let trans = word_at(alloc, words, 1)?;
    let (a, v, b) = triple_at(alloc, words, 4, 7, 8)?;
    Ok(Some(Command::Pgetrs {
        trans,
        n,
        nrhs,
        a,
        ia,
        ja,
        v,
        b,
        ib,
        jb,
    }))
}

/// `pgemr2d M N A IA JA B IB JB CTXT`
#[tactic(auto, unfolding(crate::specs::Commands::pgemr2d_of))]
pub fn pgemr2d_of(alloc: Global, words: &[Word]) -> Result<Option<Command>, NoMemory>
    ensures { IfOk result (λ c. c ≡ pgemr2d_of words.now) }
{
    let Some(numbers) = numbers_at(words, [1, 2, 4, 5, 7, 8]) else {
        return Ok(None);
    };
    let [m, n, ia, ja, ib, jb] = numbers;
    let (a, b, ctxt) = triple_at(alloc, words, 3, 6, 9)?;
    Ok(Some(Command::Pgemr2d {
        m,
        n,
        a,
        ia,
        ja,
        b,
        ib,
        jb,
        ctxt,
    }))
}

/// `ptran M N ALPHA A IA JA BETA C IC JC`
#[tactic(auto, unfolding(crate::specs::Commands::ptran_of))]
pub fn ptran_of(alloc: Global, words: &[Word]) -> Result<Option<Command>, NoMemory>
    ensures { IfOk result (λ c. c ≡ ptran_of words.now) }
{
    let Some(numbers) = numbers_at(words, [1, 2, 3, 5, 6, 7, 9, 10]) else {
        return Ok(None);
    };
    let [m, n, alpha, ia, ja, beta, ic, jc] = numbers;
    let (a, c) = pair_at(alloc, words, 4, 8)?;
    Ok(Some(Command::Ptran {
        m,
        n,
        alpha,
        a,
        ia,
        ja,
        beta,
        c,
        ic,
        jc,
    }))
}

/// `pgetri N A IA JA V B IB JB`
#[tactic(auto, unfolding(crate::specs::Commands::pgetri_of))]
pub fn pgetri_of(alloc: Global, words: &[Word]) -> Result<Option<Command>, NoMemory>
    ensures { IfOk result (λ c. c ≡ pgetri_of words.now) }
{
    let Some(numbers) = numbers_at(words, [1, 3, 4, 7, 8]) else {
        return Ok(None);
    };
    let [n, ia, ja, ib, jb] = numbers;
    let (a, v, b) = triple_at(alloc, words, 2, 5, 6)?;
    Ok(Some(Command::Pgetri {
        n,
        a,
        ia,
        ja,
        v,
        b,
        ib,
        jb,
    }))
}
