// How a map is drawn.

/// How a map is drawn.
#[derive(Clone, Copy, Debug, PartialEq, Eq)]
pub enum Drawing {
    /// Lines of letters, one for each page.
    Text,
    /// An SVG file of squares, one for each page.
    Svg,
}
