// A page of lines.
ghost use Rattle.std.specs.Prelude.{◌≡◌, ◌≤◌, length};
ghost use Rattle.listing.specs.Show.{show_row};
ghost use Rattle.listing.specs.Fields.{row_of};
ghost use Rattle.listing.specs.Pages.{with_line};

use crate::draft::Draft;
use crate::line::Line;
use crate::reading::Reading;
use crate::sheet::Sheet;
use arrayvec::CapacityError;

// 48 lines have room.
pub type Page = Sheet<36864>;

impl Sheet<36864> {
    // Adds a placed point's line, unless there is no room for it.
    pub fn push_line(&mut self, line: &Line<&Reading>) -> Result<(), CapacityError>
        ensures line { (result, self.new) ≡ with_line self.old (show_row (row_of line.now)) }
        ensures short { length (show_row (row_of line.now)) ≤ 768 }
    {
        let line = Draft::line(line);
        self.try_push(line.text())
    }
}
