//! What is read of a body.

use zbx_types::Text;

/// What is read of a body that is JSON. Of another value than an object nothing is there.
#[derive(Debug, Drop)]
pub struct Body<T> {
    /// Its member `request`, where that is a text.
    pub request: Option<Text>,
    /// Its member `host`, where that is a text.
    pub host: Option<Text>,
    /// What is gathered of the elements of its member `data`, in order, where that is an array.
    pub elements: Option<T>,
}
