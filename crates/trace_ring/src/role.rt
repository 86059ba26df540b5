/// What the one who holds a pass may do.
pub enum Role {
    /// Nothing yet, while there is no other pass.
    Alone,
    /// Puts values in, or reads how many were handed out.
    Pushes,
    /// Takes values out, or tells how many were handed out.
    Takes,
}
