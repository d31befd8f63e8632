//! Entries of a table that numbers choose: what the jobs of the benchmark make their texts of.
ghost use Rattle.std.specs.Prelude.{◌≡◌, ◌<◌, ◌%◌, Some, length, slice_get};

/// The number taken below a limit: 17 below 5 is 2.
pub fn taken_below(number: u64, limit: u64) -> u64
    requires { 0 < limit }
    ensures value { result ≡ number % limit }
    ensures bound { result < limit }
{
    number % limit
}

/// The entry of a table that a number chooses: of three entries 7 chooses the second.
pub fn chosen<T: Copy>(table: &[T], number: u64) -> T
    requires { 0 < length table.now }
    ensures { Some result ≡ slice_get table.now (number % length table.now) }
{
    table[taken_below(number, table.len() as u64) as usize]
}
