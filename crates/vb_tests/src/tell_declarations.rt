// What is told of lines of declarations and of declarators.

use crate::tell::{tell_name, tell_named};
use crate::tell_expressions::{tell_all, tell_expr, tell_initializer, tell_simple_type, tell_type};
use std::alloc::AllocError;
use vb_syntax::{
    Access, ClassModifier, DeclarationLine, Declarator, DelegateKind, EventAccessorKind,
    EventHandler, FunctionKind, ImplementedMember, Items, MethodSignature, Modifier, NameModifier,
    Parameter, PassedBy, PropertyHeader, PropertyKind, TypeConstraint, TypeName, TypeParameter,
    VariableIdentifier, VariableInitializer, VariableModifier,
};
use vb_text::NameTable;

fn access_word(access: Option<Access>) -> &'static str {
    match access {
        None => "",
        Some(Access::Public) => "public ",
        Some(Access::Private) => "private ",
        Some(Access::Protected) => "protected ",
        Some(Access::Friend) => "friend ",
        Some(Access::ProtectedFriend) => "protected friend ",
    }
}

fn modifier_word(modifier: Modifier) -> &'static str {
    match modifier {
        Modifier::Access(access) => access_word(Some(access)),
        Modifier::Shared => "shared ",
        Modifier::Overridable => "overridable ",
        Modifier::Overrides => "overrides ",
        Modifier::MustOverride => "must override ",
        Modifier::NotOverridable => "not overridable ",
        Modifier::Overloads => "overloads ",
        Modifier::Shadows => "shadows ",
        Modifier::ReadOnly => "read only ",
    }
}

fn tell_modifiers(out: &mut String, modifiers: &Items<Modifier>) -> Result<(), AllocError> {
    for modifier in modifiers.as_slice() {
        out.push_str(modifier_word(*modifier))?;
    }
    Ok(())
}

fn tell_constraint(
    out: &mut String,
    names: &mut NameTable,
    constraint: &TypeConstraint,
) -> Result<(), AllocError> {
    match constraint {
        TypeConstraint::Class => out.push_str(" class"),
        TypeConstraint::New => out.push_str(" new"),
        TypeConstraint::Type(name) => {
            out.push_str(" ")?;
            tell_type(out, names, name)
        }
    }
}

fn tell_type_parameters(
    out: &mut String,
    names: &mut NameTable,
    parameters: &Items<TypeParameter>,
) -> Result<(), AllocError> {
    for parameter in parameters.as_slice() {
        tell_named(out, names, " of ", parameter.name)?;
        for constraint in parameter.constraints.as_slice() {
            tell_constraint(out, names, constraint)?;
        }
    }
    Ok(())
}

fn array_sign(modifier: NameModifier) -> &'static str {
    match modifier {
        NameModifier::Plain => "",
        NameModifier::Array => "()",
    }
}

fn tell_parameters(
    out: &mut String,
    names: &mut NameTable,
    parameters: &Items<Parameter>,
) -> Result<(), AllocError> {
    for parameter in parameters.as_slice() {
        let word = match parameter.passed {
            PassedBy::Value => " by value ",
            PassedBy::Reference => " by reference ",
        };
        tell_named(out, names, word, parameter.name)?;
        out.push_str(array_sign(parameter.modifier))?;
        out.push_str(" ")?;
        tell_type(out, names, &parameter.declared)?;
    }
    Ok(())
}

fn tell_implemented(
    out: &mut String,
    names: &mut NameTable,
    members: &Items<ImplementedMember>,
) -> Result<(), AllocError> {
    for member in members.as_slice() {
        out.push_str(" implements ")?;
        tell_type(out, names, &member.interface)?;
        tell_named(out, names, ".", member.member)?;
    }
    Ok(())
}

fn tell_result(
    out: &mut String,
    names: &mut NameTable,
    declared: &TypeName,
) -> Result<(), AllocError> {
    out.push_str(" as ")?;
    tell_type(out, names, declared)
}

fn tell_signature(
    out: &mut String,
    names: &mut NameTable,
    signature: &MethodSignature,
) -> Result<(), AllocError> {
    tell_name(out, names, signature.name)?;
    tell_type_parameters(out, names, &signature.type_parameters)?;
    tell_parameters(out, names, &signature.parameters)
}

fn tell_property(
    out: &mut String,
    names: &mut NameTable,
    header: &PropertyHeader,
) -> Result<(), AllocError> {
    let word = match header.kind {
        PropertyKind::ReadWrite => "property ",
        PropertyKind::ReadOnly => "property read ",
        PropertyKind::WriteOnly => "property write ",
    };
    tell_named(out, names, word, header.name)?;
    out.push_str(array_sign(header.modifier))?;
    tell_result(out, names, &header.declared)?;
    if let Some(value) = &header.initializer {
        out.push_str(" gets ")?;
        tell_expr(out, names, value)?;
    }
    tell_implemented(out, names, &header.implements)
}

fn tell_bases(
    out: &mut String,
    names: &mut NameTable,
    bases: &Items<TypeName>,
) -> Result<(), AllocError> {
    for base in bases.as_slice() {
        out.push_str(" ")?;
        tell_type(out, names, base)?;
    }
    Ok(())
}

// Appends what a line declares.
pub fn tell_declaration(
    out: &mut String,
    names: &mut NameTable,
    line: &DeclarationLine,
) -> Result<(), AllocError> {
    match line {
        DeclarationLine::Module(access, name) => {
            out.push_str(access_word(*access))?;
            tell_named(out, names, "module ", *name)
        }
        DeclarationLine::Class {
            access,
            modifier,
            name,
            type_parameters,
        } => {
            out.push_str(access_word(*access))?;
            let word = match *modifier {
                None => "class ",
                Some(ClassModifier::MustInherit) => "class must ",
                Some(ClassModifier::NotInheritable) => "class not ",
            };
            tell_named(out, names, word, *name)?;
            tell_type_parameters(out, names, type_parameters)
        }
        DeclarationLine::Interface {
            access,
            name,
            type_parameters,
        } => {
            out.push_str(access_word(*access))?;
            tell_named(out, names, "interface ", *name)?;
            tell_type_parameters(out, names, type_parameters)
        }
        DeclarationLine::Delegate {
            access,
            kind,
            name,
            type_parameters,
            parameters,
            result: returned,
        } => {
            out.push_str(access_word(*access))?;
            let word = match *kind {
                DelegateKind::Sub => "delegate sub ",
                DelegateKind::Function => "delegate function ",
            };
            tell_named(out, names, word, *name)?;
            tell_type_parameters(out, names, type_parameters)?;
            tell_parameters(out, names, parameters)?;
            match returned {
                Some(returned) => tell_result(out, names, returned),
                None => Ok(()),
            }
        }
        DeclarationLine::Inherits(bases) => {
            out.push_str("inherits")?;
            tell_bases(out, names, bases)
        }
        DeclarationLine::Implements(bases) => {
            out.push_str("implements")?;
            tell_bases(out, names, bases)
        }
        _ => tell_member(out, names, line),
    }
}

fn tell_member(
    out: &mut String,
    names: &mut NameTable,
    line: &DeclarationLine,
) -> Result<(), AllocError> {
    match line {
        DeclarationLine::Variables(modifiers, all) => {
            tell_modifiers(out, modifiers)?;
            out.push_str("variables")?;
            tell_declarators(out, names, all)
        }
        DeclarationLine::Constants(modifiers, all) => {
            tell_modifiers(out, modifiers)?;
            out.push_str("constants")?;
            tell_declarators(out, names, all)
        }
        DeclarationLine::Sub(modifiers, signature, implements) => {
            tell_modifiers(out, modifiers)?;
            out.push_str("sub ")?;
            tell_signature(out, names, signature)?;
            tell_implemented(out, names, implements)
        }
        DeclarationLine::Constructor(modifiers, parameters, implements) => {
            tell_modifiers(out, modifiers)?;
            out.push_str("new")?;
            tell_parameters(out, names, parameters)?;
            tell_implemented(out, names, implements)
        }
        DeclarationLine::Function {
            modifiers,
            kind,
            signature,
            result: returned,
            implements,
        } => {
            tell_modifiers(out, modifiers)?;
            out.push_str(match *kind {
                FunctionKind::Regular => "function ",
                FunctionKind::Iterator => "iterator function ",
            })?;
            tell_signature(out, names, signature)?;
            tell_result(out, names, returned)?;
            tell_implemented(out, names, implements)
        }
        DeclarationLine::Property(modifiers, header) => {
            tell_modifiers(out, modifiers)?;
            tell_property(out, names, header)
        }
        _ => tell_event(out, names, line),
    }
}

fn tell_event(
    out: &mut String,
    names: &mut NameTable,
    line: &DeclarationLine,
) -> Result<(), AllocError> {
    match line {
        DeclarationLine::Event {
            modifiers,
            name,
            handler,
            implements,
        } => {
            tell_modifiers(out, modifiers)?;
            tell_named(out, names, "event ", *name)?;
            match handler {
                EventHandler::Parameters(parameters) => tell_parameters(out, names, parameters)?,
                EventHandler::Delegate(name) => tell_result(out, names, name)?,
            }
            tell_implemented(out, names, implements)
        }
        DeclarationLine::CustomEvent(modifiers, name, delegate) => {
            tell_modifiers(out, modifiers)?;
            tell_named(out, names, "custom ", *name)?;
            tell_result(out, names, delegate)
        }
        DeclarationLine::Get(access) => {
            out.push_str(access_word(*access))?;
            out.push_str("get")
        }
        DeclarationLine::Set(access, parameters) => {
            out.push_str(access_word(*access))?;
            out.push_str("set")?;
            tell_parameters(out, names, parameters)
        }
        DeclarationLine::EventAccessor(kind, parameters) => {
            out.push_str(match *kind {
                EventAccessorKind::AddHandler => "add",
                EventAccessorKind::RemoveHandler => "remove",
                EventAccessorKind::RaiseEvent => "raise",
            })?;
            tell_parameters(out, names, parameters)
        }
        _ => out.push_str("?"),
    }
}

fn tell_variables(
    out: &mut String,
    names: &mut NameTable,
    variables: &Items<VariableIdentifier>,
) -> Result<(), AllocError> {
    for one in variables.as_slice() {
        tell_named(out, names, " ", one.name)?;
        match &one.modifier {
            VariableModifier::Plain => {}
            VariableModifier::Array => out.push_str("()")?,
            VariableModifier::Bound(bound) => tell_expr(out, names, bound)?,
        }
    }
    Ok(())
}

fn tell_initial(
    out: &mut String,
    names: &mut NameTable,
    initial: &Option<VariableInitializer>,
) -> Result<(), AllocError> {
    match initial {
        Some(value) => {
            out.push_str(" gets ")?;
            tell_initializer(out, names, value)
        }
        None => Ok(()),
    }
}

fn tell_declarator(
    out: &mut String,
    names: &mut NameTable,
    declared: &Declarator,
) -> Result<(), AllocError> {
    match declared {
        Declarator::As(variables, name, initial) => {
            tell_variables(out, names, variables)?;
            tell_result(out, names, name)?;
            tell_initial(out, names, initial)
        }
        Declarator::AsNew(variables, name, arguments) => {
            tell_variables(out, names, variables)?;
            out.push_str(" new ")?;
            tell_simple_type(out, names, name)?;
            tell_all(out, names, arguments)
        }
        Declarator::Inferred(name, value) => {
            tell_named(out, names, " ", *name)?;
            out.push_str(" gets ")?;
            tell_expr(out, names, value)
        }
    }
}

// Appends declarators, each with a blank before.
pub fn tell_declarators(
    out: &mut String,
    names: &mut NameTable,
    all: &Items<Declarator>,
) -> Result<(), AllocError> {
    for declared in all.as_slice() {
        tell_declarator(out, names, declared)?;
    }
    Ok(())
}
