// The plane: points, closed intervals and rectangles, by value.
//
// A method or an operator computes: it takes any float, NaN and infinities too, and refuses nothing. A function of
// a module is the entry of that name: it gives the value, or `NotFinite` where a float handed in is not finite.
// An interval and a rectangle have the same methods and entries, side by side: C has a function for each, and one generic
// over both would need a trait with each method and each definition once more.
#![tactic(auto)]

pub mod interval;
pub mod point;
pub mod rect;

pub use interval::Interval;
pub use point::Point;
pub use rect::Rect;
