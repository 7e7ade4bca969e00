ghost use Rattle.std.specs.Prelude.{◌≡◌, ◌≤◌, ◌++◌, ◌∷◌, [], length, slice_get, map, Some};
ghost use Rattle.gc_ast.specs.QueryViews.{file_trees, statement_tree};

use crate::names::NameTable;
use crate::query::StatementList;
use gc_base::{Numbered, Place};

/// The places of the tokens of a file.
pub type PlaceList = Numbered<Place>;

/// The statements of a file, its name table, the places where its tokens begin, and that of its end.
#[derive(Drop)]
pub struct File {
    pub statements: StatementList,
    pub names: NameTable,
    pub places: PlaceList,
    pub end: Place,
}

impl File {
    /// The file of these statements, with the names that they speak of and the places of its tokens.
    pub fn of(statements: StatementList, names: NameTable, places: PlaceList, end: Place) -> File
        ensures trees { file_trees result ≡ map (statement_tree names) statements.items }
        ensures names { result.names ≡ names }
        ensures places { result.places ≡ places }
        ensures end { result.end ≡ end }
    {
        File {
            statements,
            names,
            places,
            end,
        }
    }

    /// The place where the token of a number begins; at the number of tokens the end of the text.
    pub fn place(&self, token: u32) -> Place
        requires { token ≤ length self.now.places }
        ensures { slice_get (self.now.places ++ self.now.end ∷ []) token ≡ Some result }
    {
        if token < self.places.len() {
            *self.places.at(token)
        } else {
            self.end
        }
    }
}
