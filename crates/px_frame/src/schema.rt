//! Schemas: an ordered map of names to types.
ghost use Rattle.std.specs.Prelude.{◌≡◌, ◌==◌, ◌++◌, ◌∷◌, [], Ok, Err, OnOk, OnErr, find, length, map, option_map, position, if◌then◌else◌};
ghost use Rattle.std.specs.List.{IsDistinct};
ghost use Rattle.px_column.specs.Prelude.{Answers, AnswersBy, kind_of};
ghost use Rattle.px_value.specs.declared.error.PxError.TheVariants.{Duplicate};
ghost use Rattle.px_frame.specs.Frame.{first_repeat, name_eq, names_of, unless_repeated};
ghost use Rattle.px_frame.specs.Schema.{column_field, field_names, has_field_name, is_field_name};
ghost use Rattle.px_frame.specs.SchemaView.{field_kind};

use indexmap::IndexMap;
use px_column::{Column, DataType, Name, Px, PxError};
use std::alloc::Global;
use std::marker::Model;
use std::rc::Rc;

/// A name and the type of what has it (polars `Field`).
#[derive(Drop)]
pub struct Field {
    /// The name.
    pub name: Name,
    /// The type.
    pub dtype: DataType,
}

/// Fields with distinct names in their order (polars `Schema`), seen as the list of their names and
/// types.
pub struct Schema {
    fields: IndexMap<Name, DataType>,
}

/// One call where a schema is let go, so that proofs see no more of what is inside.
impl Drop for Schema {
    fn drop(self) {
        let Schema { fields: _fields } = self;
    }
}

/// A schema with several owners (polars `SchemaRef`).
pub type SchemaRef = Rc<Schema>;

impl Model for Schema {
    ghost use Rattle.std.specs.Prelude.{List};
    ghost use Rattle.std.specs.Coded.{coded_list};
    ghost use Rattle.px_frame.specs.Schema.{FieldKind, coded_field};

    ghost Value = { List FieldKind };

    ghost coded = { coded_list coded_field };

    ghost use Rattle.std.specs.Prelude.{map};
    ghost use Rattle.std.specs.List.{IsDistinct};
    ghost use Rattle.px_frame.specs.Frame.{name_eq};
    ghost use Rattle.px_frame.specs.Schema.{field_names};
    ghost use Rattle.px_frame.specs.SchemaView.{entry_kind};

    ghost view = { λ s. map entry_kind s.fields.entries };

    ghost invariant = { λ s. IsDistinct name_eq (field_names (map entry_kind s.fields.entries)) };
}

impl Schema {
    /// No fields.
    pub fn new(alloc: Global) -> Px<Schema>
        ensures { Answers result (Ok []) }
    {
        Ok(Schema {
            fields: IndexMap::new(alloc),
        })
    }

    /// The number of fields.
    pub fn len(&self) -> usize
        ensures len { result ≡ length self.now }
        ensures distinct { IsDistinct name_eq (field_names self.now) }
    {
        self.fields.len()
    }

    /// Whether there is no field.
    pub fn is_empty(&self) -> bool
        ensures { result ≡ (length self.now == 0) }
    {
        self.len() == 0
    }

    /// The place, the name and the type of the field with this name, `None` where there is none.
    pub fn get_full(&self, name: &Name) -> Option<(usize, &Name, &DataType)>
        ensures place { option_map (λ f. f.0) result ≡ position (name_eq name.now) (field_names self.now) }
        ensures field { option_map (λ f. record { name = f.1.now; kind = kind_of f.2.now }) result ≡ find (has_field_name name.now) self.now }
    {
        self.fields.get_full(name)
    }

    /// A copy of the field with this name, `None` where there is none.
    pub fn get_field(&self, alloc: Global, name: &Name) -> Px<Option<Field>>
        ensures { AnswersBy (option_map field_kind) result (Ok (find (has_field_name name.now) self.now)) }
    {
        match self.get_full(name) {
            None => Ok(None),
            Some((_, name, dtype)) => Ok(Some(Field {
                name: name.try_clone(alloc)?,
                dtype: dtype.try_clone(alloc)?,
            })),
        }
    }

    /// One more field, which goes last; `Duplicate` with its name where that stands already. The schema
    /// is as before where the call is refused.
    pub fn push(&mut self, field: Field) -> Px<()>
        ensures answer { Answers result (if is_field_name field.name self.old then Err (Duplicate field.name) else Ok tt) }
        ensures added { OnOk result (self.new ≡ self.old ++ field_kind field ∷ []) }
        ensures unchanged { OnErr result (self.new ≡ self.old) }
    {
        let Field { name, dtype } = field;
        if self.fields.contains_key(&name) {
            return Err(PxError::Duplicate(name));
        }
        self.fields.insert(name, dtype)?;
        Ok(())
    }
}

fn field_of(alloc: Global, column: &Column) -> Px<Field>
    ensures { AnswersBy field_kind result (Ok (column_field column.now)) }
{
    Ok(Field {
        name: column.name().try_clone(alloc)?,
        dtype: column.dtype().try_clone(alloc)?,
    })
}

/// The names and types of the columns; `Duplicate` with the first name that stands earlier.
pub(crate) fn schema_of(alloc: Global, columns: &[Column]) -> Px<Schema>
    ensures { Answers result (unless_repeated (first_repeat [] (names_of columns.now)) (Ok (map column_field columns.now))) }
{
    let mut schema = Schema::new(alloc)?;
    for column in columns {
        schema.push(field_of(alloc, column)?)?;
    }
    Ok(schema)
}
