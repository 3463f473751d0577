//! The search for what holds in a month, among what starts at months in order.

ghost use Rattle.std.specs.Prelude.{◌≡◌, ◌+◌, ◌<◌, ◌≤◌, length, slice_index};
ghost use Rattle.model_specs.specs.Curve.{Piece};
ghost use Rattle.curve_pieces.specs.StartMonths.{starts_as};

/// A piece of a curve or a step of a payment: it holds from the month of its start on, up to the next one's.
pub trait Starts {
    ghost as_piece: { Self → Piece };

    /// The month at which it starts.
    fn start(&self) -> u32
        ensures { result ≡ (as_piece self.now).from };
}

// The month at which an item starts.
fn start_at<T: Starts>(items: &[T], i: usize) -> u32
    requires { i < length items.now }
    ensures { result ≡ slice_index (starts_as T.as_piece items.now) i }
{
    items[i].start()
}

/// The place of the last item that starts at or before a month, by halving. The items are in order of their starts,
/// and the first one starts at or before the month. Takes no memory.
pub fn last_start<T: Starts>(items: &[T], month: u32) -> usize
    requires some { 0 < length items.now }
    requires first { slice_index (starts_as T.as_piece items.now) 0 ≤ month }
    ensures inside { result < length items.now }
    ensures started { slice_index (starts_as T.as_piece items.now) result ≤ month }
    ensures next { result + 1 < length items.now
        → month < slice_index (starts_as T.as_piece items.now) (result + 1) }
{
    let mut low = 0;
    let mut high = items.len();
    while high - low > 1 {
        let middle = low + (high - low) / 2;
        if start_at(items, middle) <= month {
            low = middle;
        } else {
            high = middle;
        }
    }
    low
}
