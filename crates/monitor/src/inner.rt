// All of a monitor but its reading.
use crate::marks::Marks;
use crate::point::Point;
use crate::setup::Setup;

// What was fixed when it was opened, the point that it has come to, and the points that are marked.
#[derive(Drop)]
pub struct Inner {
    pub(crate) setup: Setup,
    pub(crate) now: Point,
    pub(crate) marks: Marks,
}
