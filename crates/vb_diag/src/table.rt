// The table of the rules, a function for each group.
ghost use Rattle.std.specs.Prelude.{◌≡◌};
ghost use Rattle.std.specs.Option.{option_copied};
ghost use Rattle.vb_diag.specs.Rules.{lexical_rules, lines_rules, declarations_rules, types_rules, expressions_rules, calls_rules, branches_rules, unbuilt_rules, rules, text_in};

// The text beside a number in the table.
pub fn text_of(number: u16) -> Option<&'static str>
    ensures { option_copied result ≡ text_in rules number }
{
    lexical_text(number)
        .or(lines_text(number))
        .or(declarations_text(number))
        .or(types_text(number))
        .or(expressions_text(number))
        .or(calls_text(number))
        .or(branches_text(number))
        .or(unbuilt_text(number))
}

fn lexical_text(number: u16) -> Option<&'static str>
    ensures { option_copied result ≡ text_in lexical_rules number }
{
    match number {
        1 => Some("the file isn't UTF-8"),
        2 => Some("a character belongs to no token"),
        3 => Some("a string or character literal is malformed"),
        4 => Some("a number literal is malformed or doesn't fit"),
        5 => Some("an underscore is no continuation and no part of a name"),
        6 => Some("a bracketed name is malformed"),
        7 => Some("a logical line has more than 4096 tokens"),
        8 => Some("a line with # is no region line"),
        9 => Some("a region isn't closed or wasn't opened"),
        10 => Some("a name is longer than 1023 characters"),
        _ => None,
    }
}

fn lines_text(number: u16) -> Option<&'static str>
    ensures { option_copied result ≡ text_in lines_rules number }
{
    match number {
        30 => Some("the line isn't of the grammar"),
        31 => Some("a block has no end, or an end has no block"),
        32 => Some("the form is outside the profile"),
        33 => Some("nesting is deeper than 100"),
        34 => Some("the line can't stand here"),
        35 => Some("the option setting isn't supported"),
        36 => Some("modifiers are repeated or exclude each other"),
        _ => None,
    }
}

fn declarations_text(number: u16) -> Option<&'static str>
    ensures { option_copied result ≡ text_in declarations_rules number }
{
    match number {
        80 => Some("the name is declared twice"),
        94 => Some("there are more than 65535 members"),
        95 => Some("the import isn't known"),
        100 => Some("there is no procedure Main, or more than one"),
        _ => None,
    }
}

fn types_text(number: u16) -> Option<&'static str>
    ensures { option_copied result ≡ text_in types_rules number }
{
    match number {
        110 => Some("the type isn't known"),
        111 => Some("the type can't be inherited or implemented"),
        112 => Some("inheritance goes in a circle"),
        113 => Some("the override doesn't fit"),
        114 => Some("an interface member isn't implemented, or is so twice"),
        115 => Some("a member that must be overridden isn't"),
        116 => Some("two overloads have the same parameters"),
        117 => Some("an accessor is missing or doesn't fit"),
        118 => Some("a module can't be used as a type"),
        119 => Some("type arguments don't fit"),
        120 => Some("the iterator's result or parameters don't fit"),
        _ => None,
    }
}

fn expressions_text(number: u16) -> Option<&'static str>
    ensures { option_copied result ≡ text_in expressions_rules number }
{
    match number {
        121 => Some("the constant isn't constant"),
        140 => Some("the name isn't declared"),
        141 => Some("the member isn't accessible"),
        142 => Some("the expression is of the wrong sort"),
        143 => Some("there is no conversion"),
        144 => Some("the operator isn't defined for these types"),
        145 => Some("the constant doesn't fit"),
        146 => Some("an implicit conversion narrows"),
        147 => Some("the constant expression would throw"),
        148 => Some("there is no instance here"),
        149 => Some("the target can't be assigned"),
        _ => None,
    }
}

fn calls_text(number: u16) -> Option<&'static str>
    ensures { option_copied result ≡ text_in calls_rules number }
{
    match number {
        150 => Some("no procedure takes these arguments"),
        152 => Some("the call is ambiguous"),
        153 => Some("the type can't be made with New"),
        154 => Some("an event can't be used so"),
        155 => Some("an event is raised outside its type"),
        156 => Some("the procedure doesn't fit the delegate"),
        157 => Some("the value can't be enumerated"),
        158 => Some("the operand's type doesn't fit the statement"),
        _ => None,
    }
}

fn branches_text(number: u16) -> Option<&'static str>
    ensures { option_copied result ≡ text_in branches_rules number }
{
    match number {
        160 => Some("the label isn't there or is there twice"),
        161 => Some("a branch enters a block"),
        162 => Some("there is no enclosing block to leave or continue"),
        163 => Some("a branch leaves a Finally block"),
        164 => Some("Yield can't stand here"),
        165 => Some("On Error can't stand beside this statement"),
        166 => Some("the Return doesn't fit the procedure"),
        167 => Some("Throw without a value stands outside a Catch"),
        169 => Some("a constructor call is missing or misplaced"),
        170 => Some("more than 4096 closed generic types and procedures"),
        171 => Some("a procedure has more than 4096 locals"),
        172 => Some("Static can't stand in a generic procedure or an iterator"),
        173 => Some("a local hides another local"),
        174 => Some("a procedure has more than 65535 statements"),
        _ => None,
    }
}

fn unbuilt_text(number: u16) -> Option<&'static str>
    ensures { option_copied result ≡ text_in unbuilt_rules number }
{
    match number {
        999 => Some("the form isn't built yet"),
        _ => None,
    }
}
