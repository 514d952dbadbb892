//! Permutations, and the one at a place of their order.
ghost use Rattle.std.specs.Prelude.{◌≡◌, ◌≤◌, ◌<◌, ◌+◌, ◌∷◌, IfOk, drop, map};
ghost use Rattle.rp_words.specs.Permutations.{upto, factorial, AreAllPermutations};
ghost use Rattle.rp_words.specs.Words.{orders};

use crate::form::MAX_PARTS;
use std::alloc::{AllocError, Global};

/// The number of orders of `n` things.
pub fn factorial(n: usize) -> usize
    requires { n ≤ MAX_PARTS }
    ensures { result ≡ factorial n }
{
    let mut product = 1;
    for i in 0..n {
        product *= i + 1;
    }
    product
}

/// 0 to k - 1.
fn upto(alloc: Global, k: usize) -> Result<Vec<usize>, AllocError>
    ensures { IfOk result (λ v. v.items ≡ upto k) }
{
    (0..k).collect(alloc)
}

/// The permutation of 0 to k - 1 at a place of the lexicographic order, counted from 0: its digits in the mixed base
/// of the factorials say which of the numbers that are left comes next.
pub fn permutation_at(alloc: Global, k: usize, mut place: usize) -> Result<Vec<usize>, AllocError>
    requires few { k ≤ MAX_PARTS }
    requires within { place < factorial k }
    ensures { IfOk result (λ v. drop place (orders (upto k)) ≡ v.items ∷ drop (place + 1) (orders (upto k))) }
{
    let mut left = upto(alloc, k)?;
    let mut order = Vec::new(alloc);
    for taken in 0..k {
        let block = factorial(k - 1 - taken);
        order.push(left.remove(place / block))?;
        place %= block;
    }
    Ok(order)
}

/// All permutations of 0 to k - 1, each once, in lexicographic order: of 0 to 2 they are 0 1 2, 0 2 1, 1 0 2, 1 2 0,
/// 2 0 1 and 2 1 0.
pub fn permutations(alloc: Global, k: usize) -> Result<Vec<Vec<usize>>, AllocError>
    requires { k ≤ MAX_PARTS }
    ensures orders { IfOk result (λ vs. map (λ v. v.items) vs.items ≡ orders (upto k)) }
    ensures all { IfOk result (λ vs. AreAllPermutations k (map (λ v. v.items) vs.items)) }
{
    let mut orders = Vec::new(alloc);
    for place in 0..factorial(k) {
        orders.push(permutation_at(alloc, k, place)?)?;
    }
    Ok(orders)
}
