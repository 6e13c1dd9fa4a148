//! What a walk over the sites of a program finds.
ghost use Rattle.std.specs.Prelude.{◌≡◌, ◌==◌, ◌||◌, not};
ghost use Rattle.c_types.specs.declared.site.How.TheVariants.{Call};
ghost use Rattle.aegis_num.specs.declared.limits.TheConstants.{MAX_LOCALS};
ghost use Rattle.c_types.specs.TypingRules.{is_call, is_assignment, is_function, is_array, is_scalar, is_constant, is_private_object, is_void, has_value, fits, is_counted, at_token, is_local, rule_order};
ghost use Rattle.c_types.specs.Verdicts as spec;

use crate::site::{Home, How, Rule, Site};
use aegis_num::limits::{MAX_ARRAY_LENGTH, MAX_GLOBALS, MAX_LOCALS, MAX_PARAMETERS};
use c_grammar::Kind3;
use c_scopes::{Binding, Entity};
use regions::Class;

/// A violation: the token, and the rule.
#[derive(Clone, Copy)]
pub struct Fault {
    pub at: u32,
    pub rule: Rule,
}

/// The first violation so far, and how many locals and parameters the function has so far. Past one too many
/// they are not counted on.
#[derive(Clone, Copy)]
pub struct Verdict {
    pub first: Option<Fault>,
    pub locals: usize,
}

fn is_call(how: How) -> bool
    ensures { result ≡ is_call how }
{
    matches!(how, How::Call { .. } | How::CallValue { .. })
}

fn is_assignment(how: How) -> bool
    ensures { result ≡ is_assignment how }
{
    matches!(how, How::Assign | How::AssignElement)
}

fn is_function(entity: Entity) -> bool
    ensures { result ≡ is_function entity }
{
    matches!(entity, Entity::Function { .. })
}

fn is_array(entity: Entity) -> bool
    ensures { result ≡ is_array entity }
{
    match entity {
        Entity::Object { length, .. } => length.is_some(),
        Entity::Local { .. } | Entity::Function { .. } => false,
    }
}

fn is_scalar(entity: Entity) -> bool
    ensures { result ≡ is_scalar entity }
{
    match entity {
        Entity::Local { .. } => true,
        Entity::Object { length, .. } => length.is_none(),
        Entity::Function { .. } => false,
    }
}

fn is_constant(entity: Entity) -> bool
    ensures { result ≡ is_constant entity }
{
    match entity {
        Entity::Object { class, .. } => matches!(class, Class::Constant),
        Entity::Local { .. } | Entity::Function { .. } => false,
    }
}

fn is_private(entity: Entity) -> bool
    ensures { result ≡ is_private_object entity }
{
    match entity {
        Entity::Object { class, .. } => matches!(class, Class::Private),
        Entity::Local { .. } | Entity::Function { .. } => false,
    }
}

fn is_void(result_kind: Kind3) -> bool
    ensures { result ≡ is_void result_kind }
{
    matches!(result_kind, Kind3::Void)
}

fn has_value(entity: Entity) -> bool
    ensures { result ≡ has_value entity }
{
    match entity {
        Entity::Function {
            result,
            untrusted,
            ..
        } => !untrusted && !is_void(result),
        Entity::Local { .. } | Entity::Object { .. } => false,
    }
}

fn fits(how: How, entity: Entity) -> bool
    ensures { result ≡ fits how entity }
{
    match how {
        How::Value | How::Assign => is_scalar(entity),
        How::Element | How::AssignElement => is_array(entity),
        How::Call { .. } => is_function(entity),
        How::CallValue { .. } => has_value(entity),
    }
}

fn takes(entity: Entity, arguments: usize) -> bool
    ensures { result ≡ is_counted (Call arguments) entity }
{
    match entity {
        Entity::Function { parameters, .. } => arguments == parameters,
        Entity::Local { .. } | Entity::Object { .. } => true,
    }
}

fn is_counted(how: How, entity: Entity) -> bool
    ensures { result ≡ is_counted how entity }
{
    match how {
        How::Call { arguments } | How::CallValue { arguments } => takes(entity, arguments),
        How::Value | How::Element | How::Assign | How::AssignElement => true,
    }
}

fn is_barred(how: How, entity: Entity, home: Home) -> bool
    ensures { result ≡ spec.is_barred how entity home }
{
    (is_assignment(how) && is_constant(entity)) || (is_private(entity) && !home.private)
}

fn known_rule(how: How, binding: Binding, home: Home) -> Option<Rule>
    ensures { result ≡ spec.known_rule how binding home }
{
    if is_call(how) && binding.token == home.token {
        return Some(Rule::Recursive);
    }
    if is_barred(how, binding.entity, home) {
        return Some(Rule::Class);
    }
    if !fits(how, binding.entity) {
        return Some(Rule::Shape);
    }
    if !is_counted(how, binding.entity) {
        return Some(Rule::Arity);
    }
    None
}

fn use_rule(how: How, means: Option<Binding>, home: Home) -> Option<Rule>
    ensures { result ≡ spec.use_rule how means home }
{
    match means {
        None => Some(Rule::Unknown),
        Some(binding) => known_rule(how, binding, home),
    }
}

fn name_rule(again: bool, many: bool) -> Option<Rule>
    ensures { result ≡ spec.name_rule again many }
{
    if again {
        return Some(Rule::Twice);
    }
    if many {
        return Some(Rule::TooMany);
    }
    None
}

fn shape_rule(misfit: bool) -> Option<Rule>
    ensures { result ≡ spec.shape_rule misfit }
{
    if misfit { Some(Rule::Shape) } else { None }
}

fn length_rule(length: u32) -> Option<Rule>
    ensures { result ≡ spec.length_rule length }
{
    if length == 0 || length > MAX_ARRAY_LENGTH {
        return Some(Rule::TooLong);
    }
    None
}

fn misgiven(length: Option<u32>, values: usize, braces: bool) -> bool
    ensures { result ≡ spec.misgiven length values braces }
{
    match length {
        None => braces,
        Some(length) => !braces || (length as usize) < values,
    }
}

fn misreturns(result_kind: Kind3, value: bool) -> bool
    ensures { result ≡ spec.misreturns result_kind value }
{
    if is_void(result_kind) { value } else { !value }
}

fn is_full(locals: usize) -> bool
    ensures { result ≡ (locals == MAX_LOCALS) }
{
    locals == MAX_LOCALS as usize
}

/// The first rule that is broken at a site with so many locals and parameters before it.
fn site_rule(locals: usize, site: Site) -> Option<Rule>
    ensures { result ≡ spec.site_rule locals site }
{
    match site {
        Site::Use {
            how,
            means,
            home,
            ..
        } => use_rule(how, means, home),
        Site::Local { again, .. } => name_rule(again, is_full(locals)),
        Site::Parameter { number, again, .. } => {
            name_rule(again, number == MAX_PARAMETERS as usize || is_full(locals))
        }
        Site::Return { result, value, .. } => shape_rule(misreturns(result, value)),
        Site::Jump { in_loop, .. } => shape_rule(!in_loop),
        Site::Global { number, again, .. } => name_rule(again, number == MAX_GLOBALS as usize),
        Site::Length { length, .. } => length_rule(length),
        Site::Constant {
            length,
            values,
            braces,
            ..
        } => shape_rule(misgiven(length, values, braces)),
    }
}

/// The token of a site.
fn at_token(site: Site) -> u32
    ensures { result ≡ at_token site }
{
    match site {
        Site::Use { token, .. }
        | Site::Local { token, .. }
        | Site::Parameter { token, .. }
        | Site::Return { token, .. }
        | Site::Jump { token, .. }
        | Site::Global { token, .. }
        | Site::Length { token, .. }
        | Site::Constant { token, .. } => token,
    }
}

fn one_more(locals: usize) -> usize
    ensures { result ≡ spec.one_more locals }
{
    if locals > MAX_LOCALS as usize {
        return locals;
    }
    locals + 1
}

/// Whether a local or a parameter is declared at a site.
fn is_local(site: Site) -> bool
    ensures { result ≡ is_local site }
{
    matches!(site, Site::Local { .. } | Site::Parameter { .. })
}

fn locals_after(locals: usize, site: Site) -> usize
    ensures { result ≡ spec.locals_after locals site }
{
    if is_local(site) {
        return one_more(locals);
    }
    locals
}

fn rule_order(rule: Rule) -> u8
    ensures { result ≡ rule_order rule }
{
    match rule {
        Rule::Unknown => 0,
        Rule::Twice => 1,
        Rule::Recursive => 2,
        Rule::Class => 3,
        Rule::Shape => 4,
        Rule::Arity => 5,
        Rule::TooLong => 6,
        Rule::TooMany => 7,
    }
}

fn is_sooner(fault: Fault, other: Fault) -> bool
    ensures { result ≡ spec.is_sooner fault other }
{
    fault.at < other.at || (fault.at == other.at && rule_order(fault.rule) < rule_order(other.rule))
}

fn sooner(first: Option<Fault>, fault: Fault) -> Option<Fault>
    ensures { result ≡ spec.sooner first fault }
{
    match first {
        None => Some(fault),
        Some(other) => {
            if is_sooner(fault, other) {
                return Some(fault);
            }
            Some(other)
        }
    }
}

fn with_rule(first: Option<Fault>, at: u32, rule: Option<Rule>) -> Option<Fault>
    ensures { result ≡ spec.with_rule first at rule }
{
    match rule {
        None => first,
        Some(rule) => sooner(first, Fault { at, rule }),
    }
}

impl Verdict {
    ghost use Rattle.std.specs.Prelude.{◌≡◌};
    ghost use Rattle.c_types.specs.Verdicts.{note, afresh};

    /// Begins to count the locals and parameters of another item.
    pub fn begin(&mut self)
        ensures { self.new ≡ afresh self.old }
    {
        self.locals = 0;
    }

    /// Goes past a site.
    #[tactic(auto, unfolding(crate::specs::Verdicts::note))]
    pub fn note(&mut self, site: Site)
        ensures { self.new ≡ note self.old site }
    {
        let rule = site_rule(self.locals, site);
        self.first = with_rule(self.first, at_token(site), rule);
        self.locals = locals_after(self.locals, site);
    }
}
