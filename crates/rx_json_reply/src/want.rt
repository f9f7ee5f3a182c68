ghost use Rattle.std.specs.Prelude.{◌≡◌, ◌||◌, [], ◌∷◌, ◌++◌, List, map, ℕ};
ghost use Rattle.json.specs.Value.{value_view};
ghost use Rattle.rx_base.specs.Texts.{are_same};
ghost use Rattle.rx_command.specs.declared.features.Feature.{Feature as Named};
ghost use Rattle.rx_command.specs.Features.{feature_name, has_feature};
ghost use Rattle.rx_json_reply.specs.Faults.{items_in};
ghost use Rattle.rx_json_reply.specs.Held.{IsWant};
ghost use Rattle.rx_json_reply.specs.Requests.{strings_of, want_at as want_asked};
ghost use Rattle.rx_json_reply.specs.Wants.{can_be_asked as can_be_asked_for, is_feature, usual as usually};

use crate::field::Field;
use json::Value;
use rx_command::{Feature, Features};

/// What a reply to a pattern that is read is to hold.
#[derive(Drop)]
pub struct Want {
    pub spelling: bool,
    pub groups: bool,
    pub tree: bool,
    pub display: bool,

    /// Whether there are features among it, and which.
    pub unsupported: bool,
    pub features: Features,
}

impl Want {
    /// What a request wants, or where it does not say what is told then.
    pub fn at(request: &Value<'_>) -> Want
        ensures { IsWant result (want_asked (value_view request.now)) }
    {
        match request.get(Field::Want.name()) {
            Some(list) => Want::listed(list),
            None => Want::usual(),
        }
    }

    /// What the strings of a list ask for.
    fn listed(list: &Value<'_>) -> Want
        ensures { IsWant result (strings_of (items_in (value_view list.now))) }
    {
        if let Value::Array(items) = list {
            Want::named(items.as_slice())
        } else {
            Want::nothing()
        }
    }

    /// What is told where a request does not say.
    fn usual() -> Want
        ensures { IsWant result usually }
    {
        let mut want = Want::nothing();
        want.spelling = true;
        want.groups = true;
        want
    }

    fn nothing() -> Want
        ensures { IsWant result [] }
    {
        Want {
            spelling: false,
            groups: false,
            tree: false,
            display: false,
            unsupported: false,
            features: Features::none(),
        }
    }

    /// What the strings among these items ask for.
    fn named(items: &[Value<'_>]) -> Want
        ensures { IsWant result (strings_of (map value_view items.now)) }
    {
        let mut want = Want::nothing();
        for item in items {
            let Some(name) = item.as_str() else {
                continue;
            };
            want.insert(name);
        }
        want
    }

    /// Asks for what has this name too. Where nothing has, it stays as it is.
    fn insert(&mut self, name: &str)
        ensures { (names : List (List ℕ)) → IsWant self.old names → IsWant self.new (names ++ name.now ∷ []) }
    {
        self.spelling |= name == "spelling";
        self.groups |= name == "groups";
        self.tree |= name == "tree";
        self.display |= name == "display";
        self.insert_feature(name);
    }

    fn insert_feature(&mut self, name: &str)
        ensures unsupported { self.new.unsupported ≡ (self.old.unsupported || is_feature name.now) }
        ensures features { (feature : Named) → has_feature self.new.features feature ≡ (has_feature self.old.features feature || are_same name.now (feature_name feature)) }
        ensures rest { self.new ≡ record self.old { unsupported = self.new.unsupported; features = self.new.features } }
    {
        let Some(feature) = Feature::from_name(name) else {
            return;
        };
        self.unsupported = true;
        self.features.insert(feature);
    }
}

/// Whether something has this name that can be asked for.
pub fn can_be_asked(name: &str) -> bool
    ensures { result ≡ can_be_asked_for name.now }
{
    match name {
        "spelling" | "groups" | "tree" | "display" => true,
        _ => Feature::from_name(name).is_some(),
    }
}
