// Powers of 11 modulo 12289 and their logarithms, by tables. 11 generates every element other than zero.
#![tactic(auto)]

ghost use Rattle.std.specs.Prelude.{◌≡◌, ◌++◌, ◌+◌, ◌%◌, ◌^◌, ◌<◌, ◌≤◌, ◌⊎◌, MatchOption, slice_index};
ghost use Rattle.powers.specs.Logarithm.{Logarithm};

use crate::tables::{LOGS_HIGH, LOGS_LOW, POWERS_HIGH, POWERS_LOW};

mod tables;

// The entry i of a table that is written in two halves.
fn entry(low: &[u16; 6144], high: &[u16; 6144], i: usize) -> u32
    requires { i < 12288 }
    ensures { result ≡ slice_index (low.now ++ high.now) i }
{
    if i < 6144 {
        low[i] as u32
    } else {
        high[i - 6144] as u32
    }
}

// 11 to the i.
pub fn power(i: u32) -> u32
    ensures { result ≡ 11 ^ i % 12289 }
{
    entry(&POWERS_LOW, &POWERS_HIGH, (i % 12288) as usize)
}

// The logarithm of i + 1. A function of its own, so that what is proved of the tables holds at whatever place `log` asks for.
fn logarithm_after(i: usize) -> u32
    requires { i < 12288 }
    ensures { Logarithm (i + 1) result }
{
    entry(&LOGS_LOW, &LOGS_HIGH, i)
}

// The one exponent below 12288 whose power is v; None where there is none: for zero, and for numbers that are not reduced.
pub fn log(v: u32) -> Option<u32>
    ensures { MatchOption result ((v ≡ 0) ⊎ (12289 ≤ v)) (λ x. Logarithm v x) }
{
    if v == 0 || v > 12288 {
        None
    } else {
        Some(logarithm_after(v as usize - 1))
    }
}
