// What a walk goes by.
ghost use Rattle.request.specs.Walking.{Walking};

use crate::Request;
use tree::Table;

// An accepted table, and a request over it whose root is a place of its tree.
#[derive(Clone, Copy)]
pub struct Scope<'a> {
    pub table: Table<'a>,
    pub request: Request,
    pub ghost walking: { Walking table.image.bytes.now table.image.counts request },
}
