// A layer's window, and the pixels that it holds. The contracts cite specs/Windows.
ghost use Rattle.std.specs.Prelude.{◌≡◌, length};
ghost use Rattle.layers.specs.Limits.{columns};
ghost use Rattle.layers.specs.Windows.{window_in, within, holds};

use crate::cells::natural_at;
use crate::{Layer, Window};

// Whether a coordinate lies among `extent` of them from `first` on. Their end is not computed, so that nothing is asked of the numbers.
fn within(first: usize, extent: usize, at: usize) -> bool
    ensures { result ≡ within first extent at }
{
    first <= at && at - first < extent
}

impl Window {
    // The window that a row names.
    pub fn of(row: &[i64]) -> Window
        requires { length row.now ≡ columns }
        ensures { result ≡ window_in row.now }
    {
        Window {
            left: natural_at(row, Layer::AT_LEFT),
            top: natural_at(row, Layer::AT_TOP),
            width: natural_at(row, Layer::AT_WINDOW_WIDTH),
            height: natural_at(row, Layer::AT_WINDOW_HEIGHT),
        }
    }

    // Whether it holds the pixel in column x and row y.
    #[tactic(auto, unfolding(crate::specs::Windows::holds))]
    pub fn holds(self, x: usize, y: usize) -> bool
        ensures { result ≡ holds self x y }
    {
        within(self.left, self.width, x) && within(self.top, self.height, y)
    }
}
