// The lines of a board.
ghost use Rattle.std.specs.Prelude.{◌≡◌, length};
ghost use Rattle.model.specs.Points.{list_of};
ghost use Rattle.board.specs.Table.{points_of};

use crate::table::Table;
use listing::line::Line;
use listing::page::Page;

// A page with the line of each placed point, in rising order.
pub fn lines(points: &Table) -> Page
    ensures list { result ≡ list_of (points_of points.now) }
    ensures places { length points.now ≡ 48 }
{
    let mut page = Page::new();
    for (point, place) in (1..).zip(points) {
        if let Some(placed) = place {
            page.push_line(&Line {
                point,
                number: placed.number,
                normal: placed.normal.as_ref(),
                forced: placed.forced.as_ref(),
            })
            .unwrap();
        }
    }
    page
}
