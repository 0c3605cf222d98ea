//! How many operations a build makes.
ghost use Rattle.std.specs.Prelude.{◌≡◌, ◌≤◌};
ghost use Rattle.pq_builds.specs.Stages.{build_ops, left_ops};

/// The operations of the completion of a build that was left over so many rows: the count, an entry for
/// each row, a range for each 256 rows and one that has fewer, and the ready definition.
pub fn left_ops(rows: u32) -> u32
    requires { rows ≤ 1000000 }
    ensures { result ≡ left_ops rows }
{
    rows + rows / 256 + 3
}

/// The operations of a build over so many rows: those of the completion, and the definition with its mark.
pub fn build_ops(rows: u32) -> u32
    requires { rows ≤ 1000000 }
    ensures { result ≡ build_ops rows }
{
    left_ops(rows) + 1
}
