/// Which machine runs the program.
#[derive(Clone, Copy, Debug, PartialEq, Eq)]
pub enum Pipeline {
    /// The one around a window, of the monolithic machine.
    Window,
    /// The one of five stages, which takes its instructions in order.
    Inorder,
}
