//! A part of a canvas.
ghost use Rattle.std.specs.Prelude.{◌≡◌, ◌+◌, ◌-◌, ◌*◌, ◌^◌, ◌≤◌, ◌<◌};

/// So many rows of a canvas of this width, from one on.
#[derive(Clone, Copy)]
pub(crate) struct Band {
    pub width: u32,
    pub top: u32,
    pub rows: u32,
}

impl Band {
    /// All rows of a canvas.
    pub fn of(canvas: (u32, u32)) -> Band
        ensures width { result.width ≡ canvas.0 }
        ensures top { result.top ≡ 0 }
        ensures rows { result.rows ≡ canvas.1 }
    {
        Band {
            width: canvas.0,
            top: 0,
            rows: canvas.1,
        }
    }

    /// Where one of its rows begins.
    pub fn start(self, row: usize) -> usize
        requires within { row < self.rows }
        requires size { 4 * (self.width * self.rows) < 2 ^ 64 }
        ensures value { result ≡ 4 * self.width * row }
        ensures room { result + 4 * self.width ≤ 4 * (self.width * self.rows) }
    {
        4 * self.width as usize * row
    }

    /// So many of its first rows, and the others.
    pub fn split(self, rows: u32) -> (Band, Band)
        requires within { rows ≤ self.rows }
        requires tall { self.top + self.rows < 2 ^ 32 }
        ensures upper { result.0 ≡ record self { rows = rows } }
        ensures lower { result.1 ≡ record self { top = self.top + rows; rows = self.rows - rows } }
    {
        let upper = Band { rows, ..self };
        let lower = Band {
            top: self.top + rows,
            rows: self.rows - rows,
            ..self
        };
        (upper, lower)
    }
}
