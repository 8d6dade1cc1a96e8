mod din;
mod lackey;
mod lines;
mod room;
mod seen;
mod shapes;
