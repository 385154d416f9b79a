//! Each codec is exact: it reads what it writes, and nothing else.

ghost use Rattle.std.specs.Prelude.{ℕ, List, Option};
ghost use Rattle.byte_codec.specs.Exact.{IsExact};
ghost use Rattle.x3d_values.specs.declared.field_type.FieldType.{FieldType};
ghost use Rattle.snapshot_codec.specs.declared.input_number.Numbers.{Numbers};
ghost use Rattle.snapshot_codec.specs.declared.kept.KeptField.{KeptField};
ghost use Rattle.snapshot_codec.specs.declared.viewers.Viewers.{Viewers};
ghost use Rattle.snapshot_codec.specs.Fields.{fields_codec};
ghost use Rattle.snapshot_codec.specs.Head.{progress_codec};
ghost use Rattle.snapshot_codec.specs.Parts.{cycle_codec, plane_codec, position_codec, state_codec, states_codec, touch_codec, viewer_set_codec};
ghost use Rattle.snapshot_codec.specs.Trace.{entry_codec, trace_codec};
ghost use Rattle.snapshot_codec.specs.Values.{value_codec};

/// The codecs for the parts of a node and for the states of scripts are exact.
pub fn nodes_are_exact()
    ensures value { (t : FieldType) → IsExact (value_codec t) }
    ensures fields { (fields : List KeptField) → IsExact (fields_codec fields) }
    ensures cycle { IsExact cycle_codec }
    ensures touch { (viewers : Viewers) → IsExact (touch_codec viewers) }
    ensures plane { IsExact plane_codec }
    ensures position { IsExact position_codec }
    ensures state { IsExact state_codec }
    ensures states { (count : ℕ) → IsExact (states_codec count) }
{}

/// The codecs for the other parts of a snapshot are exact.
pub fn worlds_are_exact()
    ensures progress { (numbers : Numbers) → IsExact (progress_codec numbers) }
    ensures viewers { (viewers : Viewers) → IsExact (viewer_set_codec viewers) }
    ensures entry { (numbers : Numbers) (types : ℕ → ℕ → Option FieldType)
        → IsExact (entry_codec numbers types) }
    ensures trace { (numbers : Numbers) (types : ℕ → ℕ → Option FieldType)
        → IsExact (trace_codec numbers types) }
{}
