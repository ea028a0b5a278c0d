//! Colours of lines and lanes.

/// Dark colours that are easy to distinguish on a light ground. Red and orange are those of marks.
static COLOURS: [&str; 12] = [
    "#1f77b4", "#2e8b57", "#8e44ad", "#8a6d0b", "#008b8b", "#ad1457", "#455a64", "#6b8e23",
    "#5d4037", "#3949ab", "#00796b", "#7b5ea7",
];

/// The colour of the line or lane of this number; after twelve they begin again.
pub(crate) fn colour(number: usize) -> &'static str {
    COLOURS[number % COLOURS.len()]
}
