//! The categories of characters.
ghost use Rattle.std.specs.Prelude.{◌≡◌};
ghost use Rattle.olk_regexes.specs.Categories.{is_of};

use ucd_category::{GeneralCategory, GeneralCategoryGroup};

/// A value of Unicode's property General_Category, or a group of them.
#[derive(Clone, Copy)]
pub enum Category {
    Single(GeneralCategory),
    Group(GeneralCategoryGroup),
}

impl Category {
    /// Whether the character is of the category.
    pub fn has(self, c: char) -> bool
        ensures { result ≡ is_of self c }
    {
        let value = GeneralCategory::for_char(c);
        match self {
            Category::Single(single) => value.number() == single.number(),
            Category::Group(group) => group.contains(value),
        }
    }
}

/// The names of the categories, as ECMA-262 spells them (its table of the values of
/// General_Category).
pub static NAMES: [(&str, Category); 80] = [
    ("L", Category::Group(GeneralCategoryGroup::Letter)),
    ("Letter", Category::Group(GeneralCategoryGroup::Letter)),
    ("LC", Category::Group(GeneralCategoryGroup::CasedLetter)),
    (
        "Cased_Letter",
        Category::Group(GeneralCategoryGroup::CasedLetter),
    ),
    ("Lu", Category::Single(GeneralCategory::UppercaseLetter)),
    (
        "Uppercase_Letter",
        Category::Single(GeneralCategory::UppercaseLetter),
    ),
    ("Ll", Category::Single(GeneralCategory::LowercaseLetter)),
    (
        "Lowercase_Letter",
        Category::Single(GeneralCategory::LowercaseLetter),
    ),
    ("Lt", Category::Single(GeneralCategory::TitlecaseLetter)),
    (
        "Titlecase_Letter",
        Category::Single(GeneralCategory::TitlecaseLetter),
    ),
    ("Lm", Category::Single(GeneralCategory::ModifierLetter)),
    (
        "Modifier_Letter",
        Category::Single(GeneralCategory::ModifierLetter),
    ),
    ("Lo", Category::Single(GeneralCategory::OtherLetter)),
    (
        "Other_Letter",
        Category::Single(GeneralCategory::OtherLetter),
    ),
    ("M", Category::Group(GeneralCategoryGroup::Mark)),
    ("Mark", Category::Group(GeneralCategoryGroup::Mark)),
    (
        "Combining_Mark",
        Category::Group(GeneralCategoryGroup::Mark),
    ),
    ("Mn", Category::Single(GeneralCategory::NonspacingMark)),
    (
        "Nonspacing_Mark",
        Category::Single(GeneralCategory::NonspacingMark),
    ),
    ("Mc", Category::Single(GeneralCategory::SpacingMark)),
    (
        "Spacing_Mark",
        Category::Single(GeneralCategory::SpacingMark),
    ),
    ("Me", Category::Single(GeneralCategory::EnclosingMark)),
    (
        "Enclosing_Mark",
        Category::Single(GeneralCategory::EnclosingMark),
    ),
    ("N", Category::Group(GeneralCategoryGroup::Number)),
    ("Number", Category::Group(GeneralCategoryGroup::Number)),
    ("Nd", Category::Single(GeneralCategory::DecimalNumber)),
    (
        "Decimal_Number",
        Category::Single(GeneralCategory::DecimalNumber),
    ),
    ("digit", Category::Single(GeneralCategory::DecimalNumber)),
    ("Nl", Category::Single(GeneralCategory::LetterNumber)),
    (
        "Letter_Number",
        Category::Single(GeneralCategory::LetterNumber),
    ),
    ("No", Category::Single(GeneralCategory::OtherNumber)),
    (
        "Other_Number",
        Category::Single(GeneralCategory::OtherNumber),
    ),
    ("P", Category::Group(GeneralCategoryGroup::Punctuation)),
    (
        "Punctuation",
        Category::Group(GeneralCategoryGroup::Punctuation),
    ),
    ("punct", Category::Group(GeneralCategoryGroup::Punctuation)),
    (
        "Pc",
        Category::Single(GeneralCategory::ConnectorPunctuation),
    ),
    (
        "Connector_Punctuation",
        Category::Single(GeneralCategory::ConnectorPunctuation),
    ),
    ("Pd", Category::Single(GeneralCategory::DashPunctuation)),
    (
        "Dash_Punctuation",
        Category::Single(GeneralCategory::DashPunctuation),
    ),
    ("Ps", Category::Single(GeneralCategory::OpenPunctuation)),
    (
        "Open_Punctuation",
        Category::Single(GeneralCategory::OpenPunctuation),
    ),
    ("Pe", Category::Single(GeneralCategory::ClosePunctuation)),
    (
        "Close_Punctuation",
        Category::Single(GeneralCategory::ClosePunctuation),
    ),
    ("Pi", Category::Single(GeneralCategory::InitialPunctuation)),
    (
        "Initial_Punctuation",
        Category::Single(GeneralCategory::InitialPunctuation),
    ),
    ("Pf", Category::Single(GeneralCategory::FinalPunctuation)),
    (
        "Final_Punctuation",
        Category::Single(GeneralCategory::FinalPunctuation),
    ),
    ("Po", Category::Single(GeneralCategory::OtherPunctuation)),
    (
        "Other_Punctuation",
        Category::Single(GeneralCategory::OtherPunctuation),
    ),
    ("S", Category::Group(GeneralCategoryGroup::Symbol)),
    ("Symbol", Category::Group(GeneralCategoryGroup::Symbol)),
    ("Sm", Category::Single(GeneralCategory::MathSymbol)),
    ("Math_Symbol", Category::Single(GeneralCategory::MathSymbol)),
    ("Sc", Category::Single(GeneralCategory::CurrencySymbol)),
    (
        "Currency_Symbol",
        Category::Single(GeneralCategory::CurrencySymbol),
    ),
    ("Sk", Category::Single(GeneralCategory::ModifierSymbol)),
    (
        "Modifier_Symbol",
        Category::Single(GeneralCategory::ModifierSymbol),
    ),
    ("So", Category::Single(GeneralCategory::OtherSymbol)),
    (
        "Other_Symbol",
        Category::Single(GeneralCategory::OtherSymbol),
    ),
    ("Z", Category::Group(GeneralCategoryGroup::Separator)),
    (
        "Separator",
        Category::Group(GeneralCategoryGroup::Separator),
    ),
    ("Zs", Category::Single(GeneralCategory::SpaceSeparator)),
    (
        "Space_Separator",
        Category::Single(GeneralCategory::SpaceSeparator),
    ),
    ("Zl", Category::Single(GeneralCategory::LineSeparator)),
    (
        "Line_Separator",
        Category::Single(GeneralCategory::LineSeparator),
    ),
    ("Zp", Category::Single(GeneralCategory::ParagraphSeparator)),
    (
        "Paragraph_Separator",
        Category::Single(GeneralCategory::ParagraphSeparator),
    ),
    ("C", Category::Group(GeneralCategoryGroup::Other)),
    ("Other", Category::Group(GeneralCategoryGroup::Other)),
    ("Cc", Category::Single(GeneralCategory::Control)),
    ("Control", Category::Single(GeneralCategory::Control)),
    ("cntrl", Category::Single(GeneralCategory::Control)),
    ("Cf", Category::Single(GeneralCategory::Format)),
    ("Format", Category::Single(GeneralCategory::Format)),
    ("Cs", Category::Single(GeneralCategory::Surrogate)),
    ("Surrogate", Category::Single(GeneralCategory::Surrogate)),
    ("Co", Category::Single(GeneralCategory::PrivateUse)),
    ("Private_Use", Category::Single(GeneralCategory::PrivateUse)),
    ("Cn", Category::Single(GeneralCategory::Unassigned)),
    ("Unassigned", Category::Single(GeneralCategory::Unassigned)),
];
