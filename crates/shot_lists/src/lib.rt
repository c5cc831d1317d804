// Shot lists: the record at a place, given the rate held, on disk and in numbers that a caller hands over; and a whole list, tested.
// Refuses for a record, in this order: 9 no such kind, 10 body cut short, 6 no such rate, 5 a frame or reel out of bounds, 11 a shot
// before any rate, 12 end before first; of a list, what its earliest record at fault refuses.
#![tactic(auto)]

mod disk;
mod entries;
mod given;
mod records;

pub use disk::{check_list, record_at};
pub use given::given_at;
pub use records::{Record, RecordKind, Taken};
