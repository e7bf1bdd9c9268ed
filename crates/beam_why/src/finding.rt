use legality::Place;

/// Where a log breaks a clause. It is a hint: no contract says that it is right.
#[derive(Clone, Copy)]
pub struct Finding {
    pub at: Place,
    /// The line of the report, counted from 1, where it is another than that of the place.
    pub line: Option<usize>,
}

impl Finding {
    /// A place, on its own line of the report.
    pub fn new(at: Place) -> Finding {
        Finding { at, line: None }
    }

    /// A place, on this line of the report.
    pub fn on_line(at: Place, line: usize) -> Finding {
        Finding {
            at,
            line: Some(line),
        }
    }
}
