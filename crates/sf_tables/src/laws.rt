//! What holds of the tables, over lists alone.

ghost use Rattle.std.specs.Prelude.{◌≡◌, ℕ, ◌+◌, ◌≤◌, List, length, map};
ghost use Rattle.sf_tick.specs.declared.types.Chunk.{Chunk};
ghost use Rattle.sf_meaning.specs.Stbl.{Row, runs_of, timed_of};
ghost use Rattle.sf_meaning.specs.Tables.{expand};
ghost use Rattle.sf_meaning.specs.Rows.{timed};
ghost use Rattle.sf_tables.specs.Rows.{last_in_rows, last_tick, with_chunk};

/// A law: the runs of a list expand to it, and no runs that do are fewer.
pub fn fewest_runs()
    ensures same { (values : List ℕ) → expand (runs_of values) ≡ values }
    ensures fewest { (values : List ℕ) (runs : List (ℕ × ℕ)) → expand runs ≡ values → length (runs_of values) ≤ length runs }
{}

/// A law: one more chunk adds its samples to the number of samples in the rows, and the last tick
/// after it depends on the rows by their last tick alone.
pub fn one_more_chunk()
    ensures count { (rows : List Row) (place : ℕ) (chunk : Chunk)
        → length (timed_of (with_chunk rows place chunk)) ≡ length (timed_of rows) + length chunk.samples }
    ensures last { (rows : List Row) (place : ℕ) (chunk : Chunk)
        → last_in_rows (with_chunk rows place chunk) ≡ last_tick (last_in_rows rows) (map (λ s. s.decode) (map timed chunk.samples)) }
{}
