//! What the program adds on a terminal: column heads, colours, explanations, and progress.

mod console;
mod meter;
mod pace;
mod painting;
mod reading;
mod screen;

pub use console::{Coloring, Console};
pub use meter::Meter;
pub use pace::Pace;
pub use painting::{Painted, Painter, paint};
pub use reading::{ReadFile, ShownReading};
pub use screen::Screen;
