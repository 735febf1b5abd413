//! Instructions with their operands, in the groups of the instruction table.

/// An instruction, by its group.
#[derive(Clone, Copy)]
pub enum Instr {
    /// Does nothing (`nop`).
    Nop,
    /// Puts a constant on the stack.
    Constant(ConstantOp),
    /// Reads or writes a local.
    Local(LocalOp),
    /// Reorders the stack.
    Stack(StackOp),
    /// Computes on shorts.
    Arithmetic(ArithmeticOp),
    /// May go on elsewhere.
    Branch(BranchOp),
    /// Ends the method.
    Return(ReturnOp),
    /// Reads or writes a field.
    Field(FieldOp),
    /// Makes an array, or reads or writes its elements.
    Array(ArrayOp),
    /// Makes, throws or tests an object.
    Object(ObjectOp),
    /// Calls a method.
    Invoke(InvokeOp),
}

/// What is put on the stack.
#[derive(Clone, Copy)]
pub enum ConstantOp {
    /// The null reference.
    Null,
    /// A short.
    Number(i16),
}

/// A use of the local with this number.
#[derive(Clone, Copy)]
pub enum LocalOp {
    /// Pushes a reference.
    Aload(u8),
    /// Pushes a short.
    Sload(u8),
    /// Pops a reference or a return address.
    Astore(u8),
    /// Pops a short.
    Sstore(u8),
    /// Adds a constant to a short.
    Sinc(u8, i16),
}

/// A change of the stack's order.
#[derive(Clone, Copy)]
pub enum StackOp {
    /// Drops the top cell.
    Pop,
    /// Drops the top two cells.
    Pop2,
    /// Copies the top cell.
    Dup,
    /// Copies the top two cells.
    Dup2,
    /// Copies the top `count` cells to below the top `depth`; on top where `depth` is 0.
    DupX { count: u8, depth: u8 },
    /// The top `count` cells change places with the `below` cells below them.
    SwapX { count: u8, below: u8 },
}

/// An operation on one short or on two.
#[derive(Clone, Copy)]
pub enum ArithmeticOp {
    /// On the two shorts on top, the first operand below the second.
    Two(BinaryOp),
    /// The negative of the short on top.
    Negate,
    /// The low byte of the short on top, sign-extended (`s2b`).
    S2b,
}

/// An operation on two shorts.
#[derive(Clone, Copy)]
pub enum BinaryOp {
    Add,
    Subtract,
    Multiply,
    Divide,
    Remainder,
    ShiftLeft,
    ShiftRight,
    ShiftRightUnsigned,
    And,
    Or,
    Xor,
}

/// A comparison of two shorts.
#[derive(Clone, Copy)]
pub enum Comparison {
    Equal,
    NotEqual,
    Less,
    GreaterOrEqual,
    Greater,
    LessOrEqual,
}

/// What a conditional branch tests.
#[derive(Clone, Copy)]
pub enum Condition {
    /// The short on top, compared with 0.
    Zero(Comparison),
    /// The reference on top is null.
    IsNull,
    /// The reference on top is not null.
    NotNull,
    /// The two references on top are equal.
    SameReference,
    /// The two references on top differ.
    OtherReference,
    /// The two shorts on top, compared.
    Shorts(Comparison),
}

/// A jump. Offsets count from its opcode.
#[derive(Clone, Copy)]
pub enum BranchOp {
    /// Where the condition holds.
    If(Condition, i16),
    /// Always.
    Goto(i16),
    /// Pushes the next address and jumps (`jsr`).
    Jsr(i16),
    /// To the address in the local with this number (`ret`).
    Ret(u8),
    /// By a table of offsets for `low` to `high`, which begins 7 bytes after the opcode (`stableswitch`).
    Table { otherwise: i16, low: i16, high: i16 },
    /// By `count` pairs of a match and an offset, which begin 5 bytes after the opcode (`slookupswitch`).
    Lookup { otherwise: i16, count: u16 },
}

/// How a method ends.
#[derive(Clone, Copy)]
pub enum ReturnOp {
    /// With the reference on top (`areturn`).
    Areturn,
    /// With the short on top (`sreturn`).
    Sreturn,
    /// With nothing (`return`).
    Return,
}

/// What a field or an element of an array holds.
#[derive(Clone, Copy, PartialEq, Eq)]
pub enum ValueType {
    /// A reference.
    Reference,
    /// A byte or a boolean.
    Byte,
    /// A short.
    Short,
}

/// A use of the field of this type that the entry of the constant pool with this index names.
#[derive(Clone, Copy)]
pub enum FieldOp {
    /// Reads a static field.
    GetStatic(ValueType, u16),
    /// Writes a static field.
    PutStatic(ValueType, u16),
    /// Reads a field of the object on the stack.
    GetField(ValueType, u16),
    /// Writes a field of the object on the stack.
    PutField(ValueType, u16),
    /// Reads a field of the object in local 0 (`getfield_a_this` and its kin).
    GetFieldThis(ValueType, u16),
    /// Writes a field of the object in local 0 (`putfield_a_this` and its kin).
    PutFieldThis(ValueType, u16),
}

/// The elements of an array of numbers.
#[derive(Clone, Copy)]
pub enum PrimitiveArray {
    Booleans,
    Bytes,
    Shorts,
}

/// An operation on an array.
#[derive(Clone, Copy)]
pub enum ArrayOp {
    /// Reads an element. Arrays of bytes and of booleans are read alike.
    Load(ValueType),
    /// Writes an element.
    Store(ValueType),
    /// Makes an array of numbers (`newarray`).
    NewArray(PrimitiveArray),
    /// Makes an array of references to the class that the entry of the constant pool with this index
    /// names (`anewarray`).
    ANewArray(u16),
    /// Counts the elements (`arraylength`).
    ArrayLength,
}

/// A type that an object may be an instance of.
#[derive(Clone, Copy)]
pub enum TestedType {
    /// The class or interface that the entry of the constant pool with this index names.
    OfClass(u16),
    /// Arrays of numbers.
    OfPrimitives(PrimitiveArray),
    /// Arrays of references to the class that the entry of the constant pool with this index names.
    OfReferences(u16),
}

/// An operation on an object.
#[derive(Clone, Copy)]
pub enum ObjectOp {
    /// Makes an instance of the class that the entry of the constant pool with this index names.
    New(u16),
    /// Throws it (`athrow`).
    Athrow,
    /// Throws an exception where it is not of this type (`checkcast`).
    CheckCast(TestedType),
    /// Whether it is of this type (`instanceof`).
    InstanceOf(TestedType),
}

/// A call of the method that the entry of the constant pool with this index names.
#[derive(Clone, Copy)]
pub enum InvokeOp {
    /// By the class of its receiver (`invokevirtual`).
    Virtual(u16),
    /// Of a constructor, of a private method or of a method of a superclass (`invokespecial`).
    Special(u16),
    /// Without a receiver (`invokestatic`).
    Static(u16),
    /// Of an interface that the entry names: the cells of its arguments, and its token there
    /// (`invokeinterface`).
    Interface {
        arguments: u8,
        index: u16,
        token: u8,
    },
}
