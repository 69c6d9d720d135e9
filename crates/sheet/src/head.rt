// The numbers of a sheet. In a file of its own, since what its ghost fields import may not name it.
ghost use Rattle.std.specs.Prelude.{◌≡◌, ◌+◌, ◌*◌, ◌^◌, ◌≤◌};
ghost use Rattle.sheet.specs.Shape.{log_up};

// Its fields are private and it is made by `plan` alone, so every head that there is keeps these relations.
#[derive(Drop)]
pub struct Head {
    // m, l and N
    wires: usize,
    publics: usize,
    rows: usize,
    k: usize,
    n: usize,
    log_n: u32,
    // M
    columns: usize,
    // how many entries are used
    used: usize,
    ghost wires_most: { wires ≤ 2048 },
    ghost publics_some: { 1 ≤ publics },
    ghost publics_most: { publics ≤ 256 },
    ghost publics_within: { publics ≤ wires },
    ghost rows_most: { rows ≤ 512 },
    ghost k_is: { k ≡ 2 ^ log_up (2 * publics) },
    ghost log_n_is: { log_n ≡ log_up (k + 2 * rows) },
    ghost n_is: { n ≡ 2 ^ log_n },
    ghost columns_is: { columns ≡ wires + 2 * publics + rows },
    ghost used_most: { used ≤ 2048 },
    // what follows, for whoever computes with these numbers
    ghost k_enough: { 2 * publics ≤ k },
    ghost n_enough: { k + 2 * rows ≤ n },
    ghost n_most: { n ≤ 2048 },
}

pub mod calls;
pub mod numbers;
pub mod position;
