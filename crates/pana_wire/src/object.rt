//! Objects in JSON, of which fields are asked.
ghost use Rattle.std.specs.Prelude.{◌≡◌, option_map, option_and_then};
ghost use Rattle.serde_json.specs.Data.{Data};
ghost use Rattle.serde_json.specs.Find.{get, as_number, as_u64};
ghost use Rattle.pana_wire.specs.Field.{field_name};
ghost use Rattle.pana_wire.specs.Line.{string_in, is_given};

use crate::field::Field;
use serde_json::Value;

/// An object in JSON. Where a name stands twice its last member counts.
pub trait Object {
    // The value that it is.
    ghost json: { Self → Data };

    /// The text in a field, where there is one. Takes no memory.
    fn text(&self, field: Field) -> Option<&str>
        ensures { option_map (λ text. text.now) result ≡ string_in field (json self.now) };

    /// The number in a field, where one of 64 bits is there. Takes no memory.
    fn number(&self, field: Field) -> Option<u64>
        ensures { result ≡ option_and_then as_u64 (option_and_then as_number (get (field_name field) (json self.now))) };

    /// Something stands in a field, and not `null`. Takes no memory.
    fn is_given(&self, field: Field) -> bool
        ensures { result ≡ is_given (get (field_name field) (json self.now)) };
}

impl Object for Value {
    ghost use Rattle.serde_json.specs.View.{view};

    ghost json = { view };

    fn text(&self, field: Field) -> Option<&str> {
        self.get(field.name()).and_then(Value::as_str)
    }

    fn number(&self, field: Field) -> Option<u64> {
        self.get(field.name()).and_then(Value::as_u64)
    }

    fn is_given(&self, field: Field) -> bool {
        match self.get(field.name()) {
            Some(content) => !content.is_null(),
            None => false,
        }
    }
}
