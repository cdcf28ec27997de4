//! Arrays of objects.
ghost use Rattle.std.specs.Prelude.{◌≡◌, ◌∷◌, [], List, OnOk};
ghost use Rattle.dw_board.specs.Lists.{Member as Has};
ghost use Rattle.json.specs.Json.{object};
ghost use Rattle.json.specs.Tree.{json_tokens};
ghost use Rattle.dw_json.specs.Rows.{AreObjects, Member, members_of, objects};
ghost use Rattle.dw_json.specs.Writing.{Writes, WritesMembers};

use json::Writer;
use std::alloc::AllocError;

/// Writes the members of an object for a value of type `T`.
pub trait PutObject<T> {
    /// The condition on a value.
    ghost asks: { Self → T → Type 0 };

    /// The members for a value.
    ghost says: { Self → T → List Member → Type 0 };

    /// Writes the members for a value, which must meet the condition `asks`.
    fn put(&self, row: &mut Writer, item: &T) -> Result<(), AllocError>
        requires { asks self.now item.now }
        ensures { OnOk result ((members : List Member) × says self.now item.now members
            × WritesMembers members row.old row.new) };
}

/// Writes a member with an array of objects, one for each of `all`. Each of these must meet the condition `asks`.
pub fn put_objects<T, P: PutObject<T>>(
    row: &mut Writer,
    name: &str,
    all: &[T],
    put: &P,
) -> Result<(), AllocError>
    requires { (item : T) → Has item all.now → P.asks put.now item }
    ensures { OnOk result ((each : List (List Member)) × AreObjects (P.says put.now) all.now each
        × WritesMembers ((name.now, objects each) ∷ []) row.old row.new) }
{
    row.key(name)?;
    row.begin_array()?;
    'items: for item in all {
        put_object(row, item, put)?;
    }
    row.end_array()
}

/// Writes the object for a value.
fn put_object<T, P: PutObject<T>>(row: &mut Writer, item: &T, put: &P) -> Result<(), AllocError>
    requires { P.asks put.now item.now }
    ensures { OnOk result ((members : List Member) × P.says put.now item.now members
        × Writes (json_tokens (object (members_of members))) row.old row.new) }
{
    row.begin_object()?;
    put.put(row, item)?;
    row.end_object()
}
