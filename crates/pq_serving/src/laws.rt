//! What the definitions promise by themselves.
ghost use Rattle.pq_serving.specs.Laws.{EntryScans, PositionCodes, RowScans, StopScans};

/// A stop scan is, per input, the first rows of one range of a serving sequence, merged by position.
pub fn stop_scan_laws()
    // The merged scans are the meaning of the stop scan.
    ensures scans { StopScans }

    // A scan is one range of an index's entries,
    ensures entries { EntryScans }

    // or of a table's rows.
    ensures rows { RowScans }

    // The merge may go by the codes of the positions.
    ensures codes { PositionCodes }
{}
